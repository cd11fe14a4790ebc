//! The text of a saved configuration, whole and in pieces, and the configuration that it gives.
use bytes::BytesMut;
use config_saved::{
    PieceEnd, SaveFault, SavedReply, saved_is_equal, saved_text_is_read_back, write_saved,
};
use config_text::{Lines, read_edit};
use nvt_config::Config;
use std::alloc::Global;
use testkit_edits::config_over;
use testkit_tables::{Outcome, Placed, check, check_bytes, pass};

const DISKS: &[u64] = &[8, 1 << 40];

// A configuration as it was made, each list with an item that was changed or that went.
const MADE: &[u8] = b"subsys add nqn.a SN-A open
subsys add nqn.c SN-C open
subsys add nqn.b SN-B closed
host add nqn.h
host add nqn.i
host del nqn.h
ns add nqn.b 7 1 16 512 22222222-2222-2222-2222-222222222222 2
ns add nqn.a 1 0 1 4096 11111111-1111-1111-1111-111111111111 1
ns view nqn.a 1 named
ns view nqn.b 7 named
port add 2 ipv4 127.0.0.1 4420
port add 1 ipv6 ::1 4421
link add 1 nqn.b
link add 2 nqn.a
ana set 2 nqn.a 1 inaccessible
ana set 2 nqn.a 3 non-optimized
allow add nqn.b nqn.i
ns show nqn.a 1 nqn.i
ref add 9 ipv4 10.0.0.9 8009
ref add 8 ipv4 10.0.0.8 8009
port set 2 ipv4 127.0.0.2 4420
subsys set nqn.a closed
ns size nqn.b 7 8
ns group nqn.b 7 5
ns view nqn.b 7 all
ana set 2 nqn.a 3 optimized
subsys del nqn.c
ref del 9
";

// .. and as it is saved.
const SAVED: &[u8] = b"subsys add nqn.a SN-A closed
subsys add nqn.b SN-B closed
ns add nqn.b 7 1 8 512 22222222-2222-2222-2222-222222222222 5
ns add nqn.a 1 0 1 4096 11111111-1111-1111-1111-111111111111 1
ns view nqn.a 1 named
port add 2 ipv4 127.0.0.2 4420
port add 1 ipv6 ::1 4421
link add 1 nqn.b
link add 2 nqn.a
ana set 2 nqn.a 1 inaccessible
host add nqn.h
host del nqn.h
host add nqn.i
allow add nqn.b nqn.i
ns show nqn.a 1 nqn.i
ref add 8 ipv4 10.0.0.8 8009
";

// The longest line of it, with its end.
const LONGEST: usize = 63;

fn check_line(alloc: Global, config: &mut Config, line: &[u8]) -> Outcome {
    match read_edit(alloc, line) {
        Ok(edit) => check(config.apply(&edit).is_ok(), "an edit that is accepted"),
        Err(_) => check(false, "an edit that is read"),
    }
}

// The edit of each line is accepted.
fn check_made(alloc: Global, config: &mut Config, text: &[u8]) -> Outcome {
    let mut row: usize = 0;
    for line in Lines::of(text) {
        pass!(check_line(alloc, config, line).in_row(row));
        row = row.wrapping_add(1);
    }
    Ok(())
}

// In so much room the configuration is saved with this answer, and this text is written.
fn check_saved(
    alloc: Global,
    config: &Config,
    room: usize,
    answer: Result<(), SaveFault>,
    text: &[u8],
) -> Outcome {
    let mut out = BytesMut::with_capacity(alloc, room)?;
    let written = write_saved(config, &mut out);
    check(written == answer, "the answer").and(check_bytes(out.as_slice(), text))
}

#[test]
fn a_saved_text_gives_its_configuration(rt: HostRuntime) -> Outcome {
    saved_is_equal();
    saved_text_is_read_back();
    let alloc = rt.alloc();
    let len = SAVED.len();
    let mut config = config_over(alloc, DISKS)?;
    pass!(check_made(alloc, &mut config, MADE));
    pass!(check_saved(alloc, &config, len, Ok(()), SAVED));
    pass!(check_saved(
        alloc,
        &config,
        len.saturating_sub(1),
        Err(SaveFault::Full),
        b""
    ));
    let mut again = config_over(alloc, DISKS)?;
    pass!(check_made(alloc, &mut again, SAVED));
    check_saved(alloc, &again, len, Ok(()), SAVED)
}

// Each piece is of whole lines, and all of them are these bytes.
fn check_pieces(alloc: Global, config: Option<&Config>, room: usize, wanted: &[u8]) -> Outcome {
    let mut reply = SavedReply::to_show(config);
    let mut all = Vec::new(alloc);
    let mut piece = BytesMut::with_capacity(alloc, room)?;
    for _ in 0..=wanted.len() {
        let end = reply.write(&mut piece);
        all.extend_from_slice(piece.as_slice())?;
        if end == PieceEnd::Whole {
            return check_bytes(&all, wanted);
        }
        let is_whole = piece.as_slice().last() == Some(&b'\n');
        pass!(check(end == PieceEnd::Full && is_whole, "whole lines"));
        piece.clear();
    }
    check(false, "an end")
}

// A line that has no room is left.
fn check_left(alloc: Global, config: &Config) -> Outcome {
    let mut reply = SavedReply::to_show(Some(config));
    let mut piece = BytesMut::with_capacity(alloc, 28)?;
    let end = reply.write(&mut piece);
    check(end == PieceEnd::Full && piece.is_empty(), "no room")
}

// The row is the room.
#[test]
fn a_reply_is_the_same_in_pieces_of_any_room(rt: HostRuntime) -> Outcome {
    let alloc = rt.alloc();
    let mut config = config_over(alloc, DISKS)?;
    pass!(check_made(alloc, &mut config, SAVED));
    let mut shown = Vec::from_slice(alloc, SAVED)?;
    shown.extend_from_slice(b"ok\n")?;
    for room in LONGEST..=shown.len() {
        pass!(check_pieces(alloc, Some(&config), room, &shown).in_row(room));
    }
    pass!(check_left(alloc, &config));
    check_pieces(alloc, None, LONGEST, b"refused Memory\n")
}
