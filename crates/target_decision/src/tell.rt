//! What an edit tells the host of a controller, on its admin queue.
ghost use Rattle.std.specs.Prelude.{◌≡◌, ◌*◌, ◌+◌, ◌≤◌, ◌++◌, length};
ghost use Rattle.nvt_config.specs.Configuration.{Configuration};
ghost use Rattle.admin_queue.specs.Planned.{Plans};
ghost use Rattle.admin_queue.specs.Viewer.{views_of};
ghost use Rattle.target_decision.specs.Tell.{completed_in, completion_pdu, completion_pdus};
ghost use Rattle.target_decision.specs.Tell.{told_after, told_pdus};

use crate::session::{ConnectionState, Session};
use admin_queue::{PlannedEdit, Viewer};
use bytes::BytesMut;
use event_queue::Completion;
use nvt_fields::Status;
use pdu_codec::CapsuleResp;

/// The room that the output of each connection has for the completions of as many event requests as may
/// wait: an edit takes no memory to tell what it changes.
pub const TOLD_ROOM: usize = 4 * 24;

impl ConnectionState {
    /// Tells the host of a controller that shows this what an edit changes, before its plan is committed:
    /// the requests that it completes are answered. The connection is the controller's admin queue.
    pub fn tell(&mut self, plan: &PlannedEdit<'_>, viewer: &Viewer<'_>, output: &mut BytesMut)
        requires room { 24 * length self.old.notices.events.waiting ≤ output.old.spare }
        ensures state { (old new : Configuration) → Plans old new plan.now
            → self.new ≡ told_after old new (views_of viewer.now) self.old }
        ensures items { (old new : Configuration) → Plans old new plan.now → output.new.items
            ≡ output.old.items ++ told_pdus old new (views_of viewer.now) self.old }
        ensures room { 24 * length self.new.notices.events.waiting ≤ output.new.spare }
    {
        let completing = self.notices.tell(plan, viewer);
        complete(&mut self.session, completing.as_slice(), output);
    }
}

// Answers requests, one after another, and counts each response.
fn complete(session: &mut Session, completions: &[Completion], output: &mut BytesMut)
    requires { 24 * length completions.now ≤ output.old.spare }
    ensures session { session.new ≡ completed_in session.old completions.now }
    ensures items { output.new.items
        ≡ output.old.items ++ completion_pdus session.old completions.now }
    ensures spare { output.old.spare ≤ output.new.spare + 24 * length completions.now }
{
    for completion in completions {
        write_completion(session, *completion, output);
        session.respond();
    }
}

fn write_completion(session: &Session, completion: Completion, output: &mut BytesMut)
    requires { 24 ≤ output.old.spare }
    ensures items { output.new.items
        ≡ output.old.items ++ completion_pdu session.now completion }
    ensures spare { output.old.spare ≤ output.new.spare + 24 }
{
    let response = CapsuleResp {
        result: completion.result,
        sqhd: session.head_counted(),
        cid: completion.cid,
        status: Status::SUCCESS,
    };
    response.write(output).unwrap();
}
