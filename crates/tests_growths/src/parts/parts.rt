//! The parts below the configuration.
use bytes::BytesMut;
use config_text::{LineFaultKind, Lines, read_edit};
use nvt_config::{Access, AnaState, Edit, Family, Visibility};
use nvt_fields::{FatalErrorStatus, Nqn, NqnFault, Status, nqn_field};
use pdu_codec::{C2hData, CapsuleResp, Full, IcResp, TermReq};
use pdu_cut::{Cut, RxBuf, Side};
use std::alloc::{AllocError, Global};
use std::test::Fail;
use tables::NumberTable;
use testkit_edits::growths::{HOST, NAMESPACE, edit_of, tell};
use testkit_edits::{Line, again, is_same_edit};
use testkit_tables::{Outcome, Placed, check, pass};

// A test that makes no growth of its own: what stands beside each test's growths is counted with it.
#[test]
fn nothing_grows(rt: HostRuntime) -> Result<(), Fail> {
    tell(&rt, 0, Ok(()))
}

fn is_copied(name: &Nqn) -> Result<bool, AllocError> {
    let copy = name.try_clone()?;
    Ok(copy == *name && fills_its_field(&copy))
}

fn fills_its_field(name: &Nqn) -> bool {
    let mut field = [0; 256];
    name.write_to(&mut field);
    nqn_field(&field) == Ok(HOST)
}

fn is_name_read(alloc: Global) -> Result<bool, AllocError> {
    match Nqn::read(alloc, HOST) {
        Ok(name) => Ok(is_copied(&name)? && name.as_bytes() == HOST),
        Err(fault) => other_fault(fault == NqnFault::Memory),
    }
}

// What a fault that is, or is not, that memory ran out comes to.
fn other_fault(is_memory: bool) -> Result<bool, AllocError> {
    if is_memory {
        Err(AllocError)
    } else {
        Ok(false)
    }
}

const H2C_TERM_REQ: &[u8; 24] = &[
    2, 0, 24, 0, 24, 0, 0, 0, 1, 0, 0, 0, 0, 0, 0, 0, 0, 0, 0, 0, 0, 0, 0, 0,
];

const C2H_TERM_REQ: &[u8; 24] = &[
    3, 0, 24, 0, 24, 0, 0, 0, 1, 0, 0, 0, 0, 0, 0, 0, 0, 0, 0, 0, 0, 0, 0, 0,
];

fn cuts(buffer: &mut RxBuf, request: &[u8; 24]) -> bool {
    let room = buffer.room();
    if buffer.receive(request) != 24 {
        return false;
    }
    let is_whole = matches!(buffer.peek(), Cut::Pdu(_));
    buffer.consume(24);
    is_whole && buffer.room() == room
}

fn is_stream_cut(alloc: Global, side: Side, request: &[u8; 24]) -> Result<bool, AllocError> {
    let mut buffer = RxBuf::new(alloc, side)?;
    Ok(cuts(&mut buffer, request))
}

#[tactic(auto, using(tables::proofs::NumberTables::laws))]
fn put_least(table: &mut NumberTable<u8>, value: u8) -> Option<usize> {
    let number = table.least_free()?;
    table.put(number, value);
    Some(number)
}

// Fills a table of three, changes it, and takes values out.
fn is_table_right(table: &mut NumberTable<u8>) -> bool {
    let put = [
        put_least(table, b'a'),
        put_least(table, b'b'),
        put_least(table, b'c'),
    ];
    if let Some(value) = table.get_mut(1) {
        *value = b'd';
    }
    let removed = [table.remove(1), table.remove(1), table.remove(0)];
    (put, removed) == ([Some(0), Some(1), Some(2)], [Some(b'd'), None, Some(b'a')])
        && put_least(table, b'e') == Some(0)
}

fn is_table_made(alloc: Global) -> Result<bool, AllocError> {
    let mut table = NumberTable::new(alloc, 3)?;
    Ok(is_table_right(&mut table))
}

const IC_RESP: IcResp = IcResp {
    pfv: 0,
    cpda: 0,
    dgst: 0,
    maxh2cdata: 16_384,
};

const RESPONSE: CapsuleResp = CapsuleResp {
    result: 0,
    sqhd: 1,
    cid: 1,
    status: Status::SUCCESS,
};

fn write_each(out: &mut BytesMut) -> Result<(), Full> {
    IC_RESP.write(out)?;
    RESPONSE.write(out)?;
    TermReq::write_c2h(out, FatalErrorStatus::SequenceError, 0, &[0; 8])
}

fn write_data(out: &mut BytesMut) -> Result<(), Full> {
    let data = C2hData {
        cid: 1,
        offset: 0,
        last: true,
        hpda: 0,
        payload: &[7; 512],
    };
    data.write(out)
}

// The writers take the room that is there, and no memory.
fn are_written(out: &mut BytesMut) -> bool {
    let written = [write_each(out), write_data(out), IC_RESP.write(out)];
    written == [Ok(()), Ok(()), Err(Full)] && out.as_slice().len() == 128 + 24 + 32 + 24 + 512
}

fn is_buffer_written(alloc: Global) -> Result<bool, AllocError> {
    let mut out = BytesMut::with_capacity(alloc, 720)?;
    Ok(are_written(&mut out))
}

// A file of a line of each kind.
const FILE: &[u8] = b"subsys add nqn.a S closed
subsys set nqn.a open
subsys del nqn.a
ns add nqn.a 1 0 8 4096 11111111-1111-1111-1111-111111111111 1
ns size nqn.a 1 8
ns group nqn.a 1 2
ns del nqn.a 1
ns view nqn.a 1 named
ns show nqn.a 1 nqn.h
ns hide nqn.a 1 nqn.h
port add 1 ipv4 127.0.0.1 4420
port set 1 ipv6 ::1 4420
port del 1
link add 1 nqn.a
link del 1 nqn.a
host add nqn.h
host del nqn.h
allow add nqn.a nqn.h
allow del nqn.a nqn.h
ana set 1 nqn.a 1 change
ref add 1 ipv4 127.0.0.1 4420
ref set 1 ipv6 ::1 4420
ref del 1";

// What its lines say.
const SAID: &[Line<'static>] = &[
    Line::SubsystemAdd(b"nqn.a", b"S", Access::Closed),
    Line::SubsystemSet(b"nqn.a", Access::Open),
    Line::SubsystemDel(b"nqn.a"),
    Line::NamespaceAdd(b"nqn.a", NAMESPACE),
    Line::NamespaceSize(b"nqn.a", 1, 8),
    Line::NamespaceGroup(b"nqn.a", 1, 2),
    Line::NamespaceDel(b"nqn.a", 1),
    Line::NamespaceView(b"nqn.a", 1, Visibility::Named),
    Line::NamespaceShow(b"nqn.a", 1, b"nqn.h"),
    Line::NamespaceHide(b"nqn.a", 1, b"nqn.h"),
    Line::PortAdd(1, b"127.0.0.1", 4420),
    Line::PortSet(1, Family::Ipv6, b"::1", 4420),
    Line::PortDel(1),
    Line::LinkAdd(1, b"nqn.a"),
    Line::LinkDel(1, b"nqn.a"),
    Line::HostAdd(b"nqn.h"),
    Line::HostDel(b"nqn.h"),
    Line::AllowAdd(b"nqn.a", b"nqn.h"),
    Line::AllowDel(b"nqn.a", b"nqn.h"),
    Line::AnaSet(1, b"nqn.a", 1, AnaState::Change),
    Line::ReferralAdd(1, b"127.0.0.1", 4420),
    Line::ReferralSet(1, Family::Ipv6, b"::1", 4420),
    Line::ReferralDel(1),
];

fn is_said(alloc: Global, edit: &Edit, said: Line<'_>) -> Result<bool, AllocError> {
    let wanted = edit_of(alloc, said)?;
    Ok(wanted.is_some_and(|wanted| is_same_edit(edit, &wanted)))
}

fn is_line_read(alloc: Global, line: &[u8], said: Line<'_>) -> Result<bool, AllocError> {
    match read_edit(alloc, line) {
        Ok(edit) => is_said(alloc, &edit, said),
        Err(fault) => other_fault(fault.kind == LineFaultKind::Memory),
    }
}

fn are_lines_read(alloc: Global) -> Result<bool, AllocError> {
    let mut are_read = true;
    let mut rows = SAID.iter();
    for line in Lines::of(FILE) {
        are_read &= match rows.next() {
            Some(said) => is_line_read(alloc, line, *said)?,
            None => false,
        };
    }
    Ok(are_read && rows.next().is_none())
}

// Something that wants memory of its own.
#[derive(Clone, Copy)]
enum Part {
    Names,
    TargetBuffer,
    HostBuffer,
    Table,
    Writers,
    Lines,
}

const PARTS: &[Part] = &[
    Part::Names,
    Part::TargetBuffer,
    Part::HostBuffer,
    Part::Table,
    Part::Writers,
    Part::Lines,
];

fn is_right(alloc: Global, part: Part) -> Result<bool, AllocError> {
    match part {
        Part::Names => is_name_read(alloc),
        Part::TargetBuffer => is_stream_cut(alloc, Side::Target, H2C_TERM_REQ),
        Part::HostBuffer => is_stream_cut(alloc, Side::Host, C2H_TERM_REQ),
        Part::Table => is_table_made(alloc),
        Part::Writers => is_buffer_written(alloc),
        Part::Lines => are_lines_read(alloc),
    }
}

fn check_parts(alloc: Global, refused: &mut u32) -> Outcome {
    for (row, part) in PARTS.iter().enumerate() {
        let answer = again!(*refused, AllocError, is_right(alloc, *part));
        pass!(check(answer == Ok(true), "this part").in_row(row));
    }
    Ok(())
}

#[test]
fn parts(rt: HostRuntime) -> Result<(), Fail> {
    let mut refused = 0u32;
    let outcome = check_parts(rt.alloc(), &mut refused);
    tell(&rt, refused, outcome)
}
