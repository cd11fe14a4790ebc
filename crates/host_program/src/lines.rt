//! The lines that commands print.
ghost use Rattle.std.specs.Prelude.{◌≡◌, ◌++◌, ◌∷◌, [], IfErr, IfOk, OnOk, map, string_bytes};
ghost use Rattle.std.specs.Iterator.{item_count};
ghost use Rattle.hex.specs.Hex.{encode_lower};
ghost use Rattle.host_program.specs.Lines.{change_line, changed_line, changed_words, genctr_line, group_head, group_line, hex_line};
ghost use Rattle.host_program.specs.Lines.{is_padding, nsid_line, nsid_words, record_head, record_line, shown, text_of};
ghost use Rattle.host_program.specs.Lines.{without_padding};

use crate::printed::made;
use host_link::SessionFault;
use host_pages::{AnaGroup, DiscoveryRecord, ListedNsids, NsList, Nsids};
use nvt_fields::up_to_zero;
use std::alloc::{AllocError, Global};
use std::io::Write;

/// `genctr G records N`
pub(crate) fn push_genctr(line: &mut Vec<u8>, genctr: u64, records: u16) -> Result<(), SessionFault>
    ensures { OnOk result (line.new.items ≡ line.old.items ++ genctr_line genctr records) }
{
    made(write!(line, "genctr {genctr} records {records}\n"))
}

/// `record TRTYPE ADRFAM SUBTYPE PORTID TRADDR TRSVCID NQN`
pub(crate) fn push_record(
    line: &mut Vec<u8>,
    found: &DiscoveryRecord<'_>,
) -> Result<(), SessionFault>
    ensures { OnOk result (line.new.items ≡ line.old.items ++ record_line found.now) }
{
    push_record_head(line, found)?;
    push_text(line, found.address())?;
    push_byte(line, b' ')?;
    push_text(line, found.service())?;
    push_byte(line, b' ')?;
    push_text(line, up_to_zero(found.subnqn()))?;
    push_byte(line, b'\n')?;
    Ok(())
}

fn push_record_head(line: &mut Vec<u8>, found: &DiscoveryRecord<'_>) -> Result<(), SessionFault>
    ensures { OnOk result (line.new.items ≡ line.old.items ++ record_head found.now) }
{
    let (transport, family) = (found.transport(), found.address_family());
    let (subtype, port) = (found.subtype(), found.port());
    made(write!(line, "record {transport} {family} {subtype} {port} "))
}

/// `change C groups N`
pub(crate) fn push_change(line: &mut Vec<u8>, change: u64, groups: u16) -> Result<(), SessionFault>
    ensures { OnOk result (line.new.items ≡ line.old.items ++ change_line change groups) }
{
    made(write!(line, "change {change} groups {groups}\n"))
}

/// `group ID STATE COUNT NSID..`
pub(crate) fn push_group(line: &mut Vec<u8>, group: &AnaGroup<'_>) -> Result<(), SessionFault>
    ensures { OnOk result (line.new.items ≡ line.old.items ++ group_line group.now) }
{
    push_group_head(line, group)?;
    push_nsids(line, group.nsids())?;
    push_byte(line, b'\n')?;
    Ok(())
}

fn push_group_head(line: &mut Vec<u8>, group: &AnaGroup<'_>) -> Result<(), SessionFault>
    ensures { OnOk result (line.new.items ≡ line.old.items ++ group_head group.now) }
{
    let (id, state, change) = (group.id(), group.state(), group.change());
    made(write!(line, "group {id} {state} {change}"))
}

// Each after a space.
fn push_nsids(line: &mut Vec<u8>, nsids: Nsids<'_>) -> Result<(), SessionFault>
    ensures { OnOk result (line.new.items ≡ line.old.items ++ nsid_words nsids.entry) }
{
    for nsid in nsids {
        made(write!(line, " {nsid}"))?;
    }
    Ok(())
}

/// `changed NSID..`, or `changed all` where more changed than the list has room for
pub(crate) fn push_changed(line: &mut Vec<u8>, list: &NsList<'_>) -> Result<(), SessionFault>
    ensures line { OnOk result (line.new.items ≡ line.old.items ++ changed_line list.now) }
    ensures fault { IfErr result (λ fault. fault ≡ SessionFault.Memory) }
{
    made(write!(line, "changed"))?;
    push_changed_words(line, list)?;
    push_byte(line, b'\n')?;
    Ok(())
}

// ` all` of a list that overflowed, else its identifiers.
fn push_changed_words(line: &mut Vec<u8>, list: &NsList<'_>) -> Result<(), SessionFault>
    ensures line { OnOk result (line.new.items ≡ line.old.items ++ changed_words list.now) }
    ensures fault { IfErr result (λ fault. fault ≡ SessionFault.Memory) }
{
    if list.overflowed() {
        made(write!(line, " all"))
    } else {
        push_listed(line, list.nsids())
    }
}

// Each after a space.
fn push_listed(line: &mut Vec<u8>, nsids: ListedNsids<'_>) -> Result<(), SessionFault>
    ensures line { OnOk result (line.new.items ≡ line.old.items ++ nsid_words nsids.entry) }
    ensures fault { IfErr result (λ fault. fault ≡ SessionFault.Memory) }
{
    for listed in nsids {
        made(write!(line, " {listed}"))?;
    }
    Ok(())
}

/// `NSID`
pub(crate) fn push_nsid(line: &mut Vec<u8>, nsid: u32) -> Result<(), SessionFault>
    ensures { OnOk result (line.new.items ≡ line.old.items ++ nsid_line nsid) }
{
    made(write!(line, "{nsid}\n"))
}

/// The bytes in hex, in lower case.
pub(crate) fn push_hex(alloc: Global, line: &mut Vec<u8>, bytes: &[u8]) -> Result<(), AllocError>
    ensures { OnOk result (line.new.items ≡ line.old.items ++ hex_line bytes.now) }
{
    let digits = hex::encode(alloc, bytes)?;
    line.extend_from_slice(digits.as_bytes())?;
    push_byte(line, b'\n')
}

// The text of a field without what pads it at its end; bytes that no word has are shown as `?`.
fn push_text(line: &mut Vec<u8>, field: &[u8]) -> Result<(), AllocError>
    ensures { OnOk result (line.new.items ≡ line.old.items ++ text_of field.now) }
{
    for byte in without_padding(field) {
        push_byte(line, shown(*byte))?;
    }
    Ok(())
}

fn without_padding(field: &[u8]) -> &[u8]
    ensures { result.now ≡ without_padding field.now }
{
    let mut end = 0;
    for (at, byte) in field.iter().enumerate() {
        if !is_padding(*byte) {
            end = at + 1;
        }
    }
    &field[..end]
}

fn is_padding(byte: u8) -> bool
    ensures { result ≡ is_padding byte }
{
    byte == b' ' || byte == 0
}

fn shown(byte: u8) -> u8
    ensures { result ≡ shown byte }
{
    if byte.is_ascii_graphic() { byte } else { b'?' }
}

fn push_byte(line: &mut Vec<u8>, byte: u8) -> Result<(), AllocError>
    ensures { OnOk result (line.new.items ≡ line.old.items ++ byte ∷ []) }
{
    line.push(byte)?;
    Ok(())
}
