//! What a PDU says beside its explanation: the data of a read, of a log page, as far as one PDU shows
//! it, and the fields of a command.
ghost use Rattle.std.specs.Prelude.{◌≡◌, ◌≤◌, ◌*◌, Some, flat_map, length, take};
ghost use Rattle.std.specs.Fmt.{WritesOnOk};
ghost use Rattle.std.specs.List.{before_first, position_or_len};
ghost use Rattle.pdu_words.specs.Pages.{ana_words, changed_words, data_of, described_words, dwords};
ghost use Rattle.pdu_words.specs.Pages.{group_len, group_words, groups_words, listing_words};
ghost use Rattle.pdu_words.specs.Pages.{is_zero, log_words, told_words};
ghost use Rattle.pdu_words.specs.Pages.{detail_words, members_words, more_words, nsids_words};
ghost use Rattle.pdu_words.specs.Pages.{shows_group, spaced_words, state_words};

use crate::command::Command;
use crate::explanation::Explanation;
use crate::fields::write_fields;
use crate::names::ana_state_name;
use nvt_fields::{u16_at, u32_at, u64_at};
use std::fmt::{self, Formatter};

/// What a PDU is, and its bytes: of two log pages the words say what its data are, and of a capsule
/// what its command asks.
#[derive(Clone, Copy)]
pub struct Described<'a> {
    pub explanation: Explanation,
    pub bytes: &'a [u8],
}

impl fmt::Display for Described<'_> {
    ghost output = { λ described. Some (described_words described.explanation described.bytes.now) };

    fn fmt<W: fmt::Write>(&self, f: &mut Formatter<W>) -> fmt::Result {
        let explanation = self.explanation;
        write!(f, "{explanation}")?;
        write_details(f, explanation, self.bytes)
    }
}

fn write_details<W: fmt::Write>(
    f: &mut Formatter<W>,
    explanation: Explanation,
    bytes: &[u8],
) -> fmt::Result
    ensures { WritesOnOk W.write_str_gives f.old result (detail_words explanation bytes.now) f.new }
{
    match explanation {
        Explanation::C2hData {
            head,
            command: Some(Command::GetLogPage { lid, offset }),
        } => write_log(f, lid, offset, head.datao, data_of(bytes, head.datal)),
        Explanation::CapsuleCmd {
            cid: _,
            command: Some(command),
        } => write_fields(f, command, bytes),
        _ => Ok(()),
    }
}

// So many bytes of a PDU's data, or as many as there are.
fn data_of(bytes: &[u8], len: u32) -> &[u8]
    ensures { result.now ≡ data_of len bytes.now }
{
    if bytes.len() < 24 {
        return front(bytes, 0);
    }
    let (_, behind) = bytes.split_at(usize::from(bytes[3]).min(bytes.len()));
    front(behind, len as usize)
}

fn front(bytes: &[u8], most: usize) -> &[u8]
    ensures { result.now ≡ take most bytes.now }
{
    if bytes.len() < most {
        bytes
    } else {
        &bytes[..most]
    }
}

// The data of a log page, which stand at both offsets together.
fn write_log<W: fmt::Write>(
    f: &mut Formatter<W>,
    lid: u8,
    offset: u64,
    datao: u32,
    bytes: &[u8],
) -> fmt::Result
    ensures { WritesOnOk W.write_str_gives f.old result (log_words lid offset datao bytes.now) f.new }
{
    if lid == 0x04 && offset % 4 == 0 && datao % 4 == 0 {
        return write_changed(f, bytes);
    }
    if lid == 0x0C && offset == 0 && datao == 0 {
        return write_ana(f, bytes);
    }
    Ok(())
}

fn write_changed<W: fmt::Write>(f: &mut Formatter<W>, bytes: &[u8]) -> fmt::Result
    ensures { WritesOnOk W.write_str_gives f.old result (changed_words bytes.now) f.new }
{
    if bytes.len() < 4 {
        return Ok(());
    }
    match u32_at(bytes, 0) {
        0xFFFF_FFFF => f.write_str(": more than 1024 namespaces"),
        0 => f.write_str(": no namespaces"),
        _ => {
            let nsids = Nsids(before_zero(bytes));
            write!(f, ": namespaces{nsids}")
        }
    }
}

// The identifiers before the first that is 0.
fn before_zero(bytes: &[u8]) -> &[u8]
    ensures { dwords result.now ≡ before_first is_zero (dwords bytes.now) }
{
    let count = count_before_zero(bytes);
    &bytes[..4 * count]
}

#[tactic(auto, using(crate::proofs::Numbers::zero_here, crate::proofs::Numbers::zero_later, crate::proofs::Numbers::zero_nowhere))]
fn count_before_zero(bytes: &[u8]) -> usize
    ensures count { result ≡ position_or_len is_zero (dwords bytes.now) }
    ensures within { 4 * result ≤ length bytes.now }
{
    let mut count = 0;
    let mut rest = bytes;
    'numbers: while rest.len() >= 4 {
        if u32_at(rest, 0) == 0 {
            return count;
        }
        count += 1;
        let (_, after) = rest.split_at(4);
        rest = after;
    }
    count
}

// Identifiers of namespaces, of 4 bytes each.
#[derive(Clone, Copy)]
struct Nsids<'a>(&'a [u8]);

impl fmt::Display for Nsids<'_> {
    ghost output = { λ nsids. Some (nsids_words (dwords nsids.0.now)) };

    fn fmt<W: fmt::Write>(&self, f: &mut Formatter<W>) -> fmt::Result {
        write_numbers(f, first_eight(self.0))?;
        let count = count_numbers(self.0);
        if count > 8 {
            return write!(f, " of {count}");
        }
        Ok(())
    }
}

#[tactic(auto, using(crate::proofs::Numbers::dwords_length))]
fn count_numbers(bytes: &[u8]) -> usize
    ensures { result ≡ length (dwords bytes.now) }
{
    bytes.len() / 4
}

#[tactic(auto, using(crate::proofs::Numbers::dwords_take_eight))]
fn first_eight(bytes: &[u8]) -> &[u8]
    ensures { dwords result.now ≡ take 8 (dwords bytes.now) }
{
    front(bytes, 32)
}

// Each number of 4 bytes behind a space.
fn write_numbers<W: fmt::Write>(f: &mut Formatter<W>, bytes: &[u8]) -> fmt::Result
    ensures { WritesOnOk W.write_str_gives f.old result (flat_map spaced_words (dwords bytes.now)) f.new }
{
    let mut rest = bytes;
    'numbers: while rest.len() >= 4 {
        let number = u32_at(rest, 0);
        write!(f, " {number}")?;
        let (_, after) = rest.split_at(4);
        rest = after;
    }
    Ok(())
}

fn write_ana<W: fmt::Write>(f: &mut Formatter<W>, bytes: &[u8]) -> fmt::Result
    ensures { WritesOnOk W.write_str_gives f.old result (ana_words bytes.now) f.new }
{
    if bytes.len() < 16 {
        return Ok(());
    }
    let (_, groups) = bytes.split_at(16);
    write_listing(f, u64_at(bytes, 0), u16_at(bytes, 8), groups)
}

#[tactic(auto, unfolding(crate::specs::Pages::listing_words))]
fn write_listing<W: fmt::Write>(
    f: &mut Formatter<W>,
    changes: u64,
    count: u16,
    groups: &[u8],
) -> fmt::Result
    ensures { WritesOnOk W.write_str_gives f.old result (listing_words changes count groups.now) f.new }
{
    write!(f, ": change count {changes}, groups {count}")?;
    write_groups(f, count, groups)
}

// The first of so many groups, as far as they are shown.
fn write_groups<W: fmt::Write>(f: &mut Formatter<W>, count: u16, bytes: &[u8]) -> fmt::Result
    ensures { WritesOnOk W.write_str_gives f.old result (groups_words count bytes.now) f.new }
{
    let mut rest = bytes;
    let mut most = count.min(8);
    let mut left = count;
    'groups: while most > 0 && shows_group(rest) {
        let (group, after) = rest.split_at(group_len(rest));
        write_group(f, group)?;
        rest = after;
        most -= 1;
        left -= 1;
    }
    write_more(f, left)
}

fn write_more<W: fmt::Write>(f: &mut Formatter<W>, left: u16) -> fmt::Result
    ensures { WritesOnOk W.write_str_gives f.old result (more_words left) f.new }
{
    if left == 0 {
        return Ok(());
    }
    write!(f, "; {left} more")
}

fn shows_group(bytes: &[u8]) -> bool
    ensures { result ≡ shows_group bytes.now }
{
    bytes.len() >= 32 && group_len(bytes) <= bytes.len()
}

fn group_len(bytes: &[u8]) -> usize
    requires { 32 ≤ length bytes.now }
    ensures { result ≡ group_len bytes.now }
{
    32 + 4 * u32_at(bytes, 4) as usize
}

fn write_group<W: fmt::Write>(f: &mut Formatter<W>, group: &[u8]) -> fmt::Result
    requires { 32 ≤ length group.now }
    ensures { WritesOnOk W.write_str_gives f.old result (group_words group.now) f.new }
{
    let (_, members) = group.split_at(32);
    write_told(
        f,
        u32_at(group, 0),
        group[16] % 16,
        u64_at(group, 8),
        members,
    )
}

#[tactic(auto, unfolding(crate::specs::Pages::told_words))]
fn write_told<W: fmt::Write>(
    f: &mut Formatter<W>,
    id: u32,
    state: u8,
    changes: u64,
    members: &[u8],
) -> fmt::Result
    ensures { WritesOnOk W.write_str_gives f.old result
        (told_words id state changes (dwords members.now)) f.new }
{
    let (state, members) = (State(state), Members(members));
    write!(f, "; group {id} {state}, change count {changes}{members}")
}

#[derive(Clone, Copy)]
struct State(u8);

impl fmt::Display for State {
    ghost output = { λ state. Some (state_words state.0) };

    fn fmt<W: fmt::Write>(&self, f: &mut Formatter<W>) -> fmt::Result {
        let state = self.0;
        match ana_state_name(state) {
            Some(name) => f.write_str(name),
            None => write!(f, "state {state}"),
        }
    }
}

// The namespaces of a group, if it names any.
#[derive(Clone, Copy)]
struct Members<'a>(&'a [u8]);

impl fmt::Display for Members<'_> {
    ghost output = { λ members. Some (members_words (dwords members.0.now)) };

    fn fmt<W: fmt::Write>(&self, f: &mut Formatter<W>) -> fmt::Result {
        if count_numbers(self.0) == 0 {
            return Ok(());
        }
        let nsids = Nsids(self.0);
        write!(f, ", namespaces{nsids}")
    }
}
