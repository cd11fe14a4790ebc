//! What is owed to the front of what came, and doing it.
ghost use Rattle.std.specs.Prelude.{◌≡◌, ◌≤◌, ◌++◌, Some, length};
ghost use Rattle.pdu_cut.specs.Cut.{front_shown};
ghost use Rattle.host_driver.specs.Within.{AreLimits};
ghost use Rattle.host_driver.specs.Event.{data_at, head_at};
ghost use Rattle.host_driver.specs.State.{after_decision, owed};
ghost use Rattle.host_driver.specs.Told.{sends_by, success, told_by};
ghost use Rattle.host_driver.specs.Session.{IsSafe, decision_room, told_of};

use crate::answer::{Answer, HostStep, Told};
use crate::fault::HostFault;
use crate::state::State;
use crate::{
    CONNECT_ROOM, HostDecision, HostParams, HostTermination, cid_named, decide, requested_room,
    write_connect,
};
use bytes::BytesMut;
use nvt_fields::Status;
use pdu_codec::TermReq;
use pdu_cut::Cut;

/// The longest H2CTermReq, in bytes.
const TERM_REQ_MAX: usize = 152;

/// What is owed to a front.
#[tactic(auto, using(crate::proofs::Safe::is_safe))]
pub(crate) fn owed(state: &State, front: &Cut<'_>) -> HostDecision
    ensures owed { result ≡ owed state.now (front_shown front.now) }
    ensures safe { IsSafe state.now (front_shown front.now) result }
{
    match front {
        Cut::Pdu(pdu) => decide(state.phase(), state.outstanding(cid_named(pdu)), pdu),
        Cut::Fault { fes, fei, .. } => HostDecision::Terminate(HostTermination {
            fes: *fes,
            fei: *fei,
        }),
        Cut::More => HostDecision::Close(TermReq { fes: 0, fei: 0 }),
    }
}

/// The room that a decision needs at most for what it sends.
pub(crate) fn room_of(decision: &HostDecision) -> usize
    ensures { result ≡ decision_room decision.now }
{
    match decision {
        HostDecision::Initialize(_) => CONNECT_ROOM,
        HostDecision::Send(request) => requested_room(request.r2tl),
        HostDecision::Terminate(_) => TERM_REQ_MAX,
        HostDecision::Connect { .. }
        | HostDecision::Refuse(_)
        | HostDecision::Receive { .. }
        | HostDecision::ReceiveLast { .. }
        | HostDecision::Complete(_)
        | HostDecision::Close(_) => 0,
    }
}

/// Does what was decided on a front, and returns what that tells. What it sends is appended to where
/// there is room for it.
pub(crate) fn act(
    params: &HostParams,
    state: &mut State,
    output: &mut BytesMut,
    decision: &HostDecision,
    front: &Cut<'_>,
) -> Told
    requires head { length (head_at (front_shown front.now)) ≤ 128 }
    requires room { decision_room decision.now ≤ output.old.spare }
    requires safe { IsSafe state.old (front_shown front.now) decision.now }
    ensures state { state.new ≡ after_decision state.old (data_at (front_shown front.now)) decision.now }
    ensures output { output.new.items ≡ output.old.items
        ++ sends_by params.now state.old (head_at (front_shown front.now)) decision.now }
    ensures told { told_of result ≡ Some (told_by state.old (data_at (front_shown front.now)) decision.now) }
{
    match *decision {
        HostDecision::Initialize(limits) => {
            write_connect(params, limits.cpda, output);
            state.initialize(limits);
            Ok(None)
        }
        HostDecision::Connect { cntlid } => {
            state.connect();
            Ok(Some(HostStep::Connected { cntlid }))
        }
        HostDecision::Refuse(status) => {
            state.fail();
            Err(HostFault::Refused(status))
        }
        HostDecision::Receive { cid } => {
            state.receive(cid, data_of(front));
            Ok(None)
        }
        HostDecision::ReceiveLast { cid } => {
            let payload = state.finish(cid, data_of(front));
            Ok(Some(HostStep::Done(success(cid, payload))))
        }
        HostDecision::Complete(completion) => Ok(Some(HostStep::Done(Answer {
            cid: completion.cid,
            status: completion.status,
            result: completion.result,
            payload: state.complete(completion.cid),
        }))),
        HostDecision::Send(request) => {
            state.send(request, output);
            Ok(None)
        }
        HostDecision::Close(TermReq { fes, fei }) => {
            state.fail();
            Err(HostFault::Term { fes, fei })
        }
        HostDecision::Terminate(HostTermination { fes, fei }) => {
            TermReq::write_h2c(output, fes, fei, head_of(front)).unwrap();
            state.fail();
            Err(HostFault::Fault { fes, fei })
        }
    }
}

// A command that its last data complete.
fn success(cid: u16, payload: Vec<u8>) -> Answer
    ensures { result ≡ record { cid = cid; status = success; result = 0; payload = payload } }
{
    Answer {
        cid,
        status: Status {
            sct: 0,
            sc: 0,
            dnr: false,
        },
        result: 0,
        payload,
    }
}

fn head_of<'a>(front: &Cut<'a>) -> &'a [u8]
    ensures { result.now ≡ head_at (front_shown front.now) }
{
    match front {
        Cut::More => &[],
        Cut::Pdu(pdu) => pdu.header(),
        Cut::Fault { head, .. } => head,
    }
}

fn data_of<'a>(front: &Cut<'a>) -> &'a [u8]
    ensures { result.now ≡ data_at (front_shown front.now) }
{
    match front {
        Cut::Pdu(pdu) => pdu.data(),
        Cut::More | Cut::Fault { .. } => &[],
    }
}
