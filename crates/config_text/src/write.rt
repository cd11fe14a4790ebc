//! The writer of lines.
ghost use Rattle.std.specs.Prelude.{◌≡◌, ◌+◌, ◌≤◌, [], ◌∷◌, ◌++◌, Some, codes, length, nat_le};
ghost use Rattle.config_text.specs.EditLine.{command_of, endpoint_values, line_of, namespace_values};
ghost use Rattle.config_text.specs.EditLine.{values_of};
ghost use Rattle.config_text.specs.Operand.{access, name, number, state, text, values, visibility};
ghost use Rattle.config_text.specs.Output.{AppendsOrFull, head_of, spaced};

use crate::{EditCommand, Operand, Operands, Scratch};
use arrayvec::ArrayVec;
use bytes::BytesMut;
use config_lists::{Access, AnaState, Edit, Endpoint, NewNamespace, Text, Visibility};
use nvt_fields::Nqn;
use std::error::Error;
use std::fmt;

/// The buffer's spare room is too small for the line. The buffer is as it was.
#[derive(Clone, Copy, Debug, PartialEq, Eq)]
pub struct Full;

impl Error for Full {}

impl fmt::Display for Full {
    ghost output = { λ _. Some (codes "the line does not fit the buffer's spare room") };

    fn fmt<W: fmt::Write>(&self, f: &mut fmt::Formatter<W>) -> fmt::Result {
        f.write_str("the line does not fit the buffer's spare room")
    }
}

/// Appends the edit's line. It takes no memory.
pub fn write_edit(edit: &Edit, out: &mut BytesMut) -> Result<(), Full>
    ensures { AppendsOrFull out.old out.new (line_of edit.now) result }
{
    write_words(command_of(edit), &operands_of(edit), out)
}

fn write_words(
    command: EditCommand,
    operands: &[Operand<'_>],
    out: &mut BytesMut,
) -> Result<(), Full>
    ensures { let line = head_of command ++ spaced (values operands.now) in
        AppendsOrFull out.old out.new line result }
{
    if !has_room(command, operands, out.capacity() - out.len()) {
        return Err(Full);
    }
    out.extend_reserved(command.noun());
    out.extend_reserved(b" ");
    out.extend_reserved(command.verb());
    append_operands(operands, out);
    Ok(())
}

// Whether the line fits in so much room.
fn has_room(command: EditCommand, operands: &[Operand<'_>], room: usize) -> bool
    ensures { result ≡ nat_le (length (head_of command ++ spaced (values operands.now))) room }
{
    let head = command.noun().len() + 1 + command.verb().len();
    match room.checked_sub(head) {
        Some(room) => have_room(operands, room),
        None => false,
    }
}

// Whether the words of the values fit in so much room, each after a space.
fn have_room(operands: &[Operand<'_>], room: usize) -> bool
    ensures { result ≡ nat_le (length (spaced (values operands.now))) room }
{
    let mut left = room;
    let mut scratch = Scratch::new();
    for operand in operands {
        let len = operand.word(&mut scratch).len();
        if left <= len {
            return false;
        }
        left -= len + 1;
    }
    true
}

// Appends the words of the values, each after a space.
fn append_operands(operands: &[Operand<'_>], out: &mut BytesMut)
    requires { length (spaced (values operands.now)) ≤ out.old.spare }
    ensures items { out.new.items ≡ out.old.items ++ spaced (values operands.now) }
    ensures spare { out.new.spare + length (spaced (values operands.now)) ≡ out.old.spare }
{
    let mut scratch = Scratch::new();
    for operand in operands {
        out.extend_reserved(b" ");
        out.extend_reserved(operand.word(&mut scratch));
    }
}

fn command_of(edit: &Edit) -> EditCommand
    ensures { result ≡ command_of edit.now }
{
    match edit {
        Edit::SubsystemAdd { .. } => EditCommand::SubsystemAdd,
        Edit::SubsystemSet { .. } => EditCommand::SubsystemSet,
        Edit::SubsystemDel { .. } => EditCommand::SubsystemDel,
        Edit::NamespaceAdd(_) => EditCommand::NamespaceAdd,
        Edit::NamespaceSize { .. } => EditCommand::NamespaceSize,
        Edit::NamespaceGroup { .. } => EditCommand::NamespaceGroup,
        Edit::NamespaceDel { .. } => EditCommand::NamespaceDel,
        Edit::NamespaceView { .. } => EditCommand::NamespaceView,
        Edit::NamespaceShow { .. } => EditCommand::NamespaceShow,
        Edit::NamespaceHide { .. } => EditCommand::NamespaceHide,
        Edit::PortAdd(_) => EditCommand::PortAdd,
        Edit::PortSet(_) => EditCommand::PortSet,
        Edit::PortDel { .. } => EditCommand::PortDel,
        Edit::LinkAdd { .. } => EditCommand::LinkAdd,
        Edit::LinkDel { .. } => EditCommand::LinkDel,
        Edit::HostAdd { .. } => EditCommand::HostAdd,
        Edit::HostDel { .. } => EditCommand::HostDel,
        Edit::AllowAdd { .. } => EditCommand::AllowAdd,
        Edit::AllowDel { .. } => EditCommand::AllowDel,
        Edit::AnaSet { .. } => EditCommand::AnaSet,
        Edit::ReferralAdd(_) => EditCommand::ReferralAdd,
        Edit::ReferralSet(_) => EditCommand::ReferralSet,
        Edit::ReferralDel { .. } => EditCommand::ReferralDel,
    }
}

// What the words after the first two say.
fn operands_of(edit: &Edit) -> Operands<'_>
    ensures { values result.items ≡ values_of edit.now }
{
    match edit {
        Edit::SubsystemAdd {
            nqn,
            serial,
            access,
        } => of_subsystem(nqn, serial, *access),
        Edit::SubsystemSet { nqn, access } => of_access(nqn, *access),
        Edit::SubsystemDel { nqn } | Edit::HostAdd { nqn } | Edit::HostDel { nqn } => of_name(nqn),
        Edit::NamespaceAdd(new) => of_new_namespace(new),
        Edit::NamespaceSize {
            subsystem,
            nsid,
            blocks,
        } => of_setting(subsystem, *nsid, *blocks),
        Edit::NamespaceGroup {
            subsystem,
            nsid,
            group,
        } => of_setting(subsystem, *nsid, *group),
        Edit::NamespaceDel { subsystem, nsid } => of_namespace(subsystem, *nsid),
        Edit::NamespaceView {
            subsystem,
            nsid,
            visibility,
        } => of_view(subsystem, *nsid, *visibility),
        Edit::NamespaceShow {
            subsystem,
            nsid,
            host,
        }
        | Edit::NamespaceHide {
            subsystem,
            nsid,
            host,
        } => of_show(subsystem, *nsid, host),
        Edit::PortAdd(endpoint) | Edit::PortSet(endpoint) => of_endpoint(endpoint),
        Edit::ReferralAdd(endpoint) | Edit::ReferralSet(endpoint) => of_endpoint(endpoint),
        Edit::PortDel { id } | Edit::ReferralDel { id } => of_number(*id),
        Edit::LinkAdd { port, subsystem } | Edit::LinkDel { port, subsystem } => {
            of_link(*port, subsystem)
        }
        Edit::AllowAdd { subsystem, host } | Edit::AllowDel { subsystem, host } => {
            of_allow(subsystem, host)
        }
        Edit::AnaSet {
            port,
            subsystem,
            group,
            state,
        } => { of_state(*port, subsystem, *group, *state) }
    }
}

fn of_name(nqn: &Nqn) -> Operands<'_>
    ensures { values result.items
        ≡ name nqn.now ∷ [] }
{
    let mut operands = ArrayVec::new();
    operands.push(Operand::Name(nqn.as_bytes()));
    operands
}

fn of_number<'a>(n: u64) -> Operands<'a>
    ensures { values result.items
        ≡ number n ∷ [] }
{
    let mut operands = ArrayVec::new();
    operands.push(Operand::Number(n));
    operands
}

fn of_access(nqn: &Nqn, who: Access) -> Operands<'_>
    ensures { values result.items
        ≡ name nqn.now ∷ access who ∷ [] }
{
    let mut operands = ArrayVec::new();
    operands.push(Operand::Name(nqn.as_bytes()));
    operands.push(Operand::Access(who));
    operands
}

fn of_subsystem<'a>(nqn: &'a Nqn, serial: &'a Text, who: Access) -> Operands<'a>
    ensures { values result.items
        ≡ name nqn.now ∷ text serial.now ∷ access who ∷ [] }
{
    let mut operands = ArrayVec::new();
    operands.push(Operand::Name(nqn.as_bytes()));
    operands.push(Operand::Text(serial.as_bytes()));
    operands.push(Operand::Access(who));
    operands
}

fn of_namespace(subsystem: &Nqn, nsid: u64) -> Operands<'_>
    ensures { values result.items
        ≡ name subsystem.now ∷ number nsid ∷ [] }
{
    let mut operands = ArrayVec::new();
    operands.push(Operand::Name(subsystem.as_bytes()));
    operands.push(Operand::Number(nsid));
    operands
}

fn of_setting(subsystem: &Nqn, nsid: u64, setting: u64) -> Operands<'_>
    ensures { values result.items
        ≡ name subsystem.now ∷ number nsid ∷ number setting ∷ [] }
{
    let mut operands = ArrayVec::new();
    operands.push(Operand::Name(subsystem.as_bytes()));
    operands.push(Operand::Number(nsid));
    operands.push(Operand::Number(setting));
    operands
}

fn of_view(subsystem: &Nqn, nsid: u64, who: Visibility) -> Operands<'_>
    ensures { values result.items
        ≡ name subsystem.now ∷ number nsid ∷ visibility who ∷ [] }
{
    let mut operands = ArrayVec::new();
    operands.push(Operand::Name(subsystem.as_bytes()));
    operands.push(Operand::Number(nsid));
    operands.push(Operand::Visibility(who));
    operands
}

fn of_show<'a>(subsystem: &'a Nqn, nsid: u64, host: &'a Nqn) -> Operands<'a>
    ensures { values result.items
        ≡ name subsystem.now ∷ number nsid ∷ name host.now ∷ [] }
{
    let mut operands = ArrayVec::new();
    operands.push(Operand::Name(subsystem.as_bytes()));
    operands.push(Operand::Number(nsid));
    operands.push(Operand::Name(host.as_bytes()));
    operands
}

fn of_new_namespace(new: &NewNamespace) -> Operands<'_>
    ensures { values result.items
        ≡ namespace_values new.now }
{
    let mut operands = ArrayVec::new();
    operands.push(Operand::Name(new.subsystem.as_bytes()));
    operands.push(Operand::Number(new.nsid));
    operands.push(Operand::Number(new.disk));
    operands.push(Operand::Number(new.blocks));
    operands.push(Operand::Number(new.block_size));
    operands.push(Operand::Uuid(new.uuid));
    operands.push(Operand::Number(new.group));
    operands
}

fn of_endpoint(endpoint: &Endpoint) -> Operands<'_>
    ensures { values result.items
        ≡ endpoint_values endpoint.now }
{
    let mut operands = ArrayVec::new();
    operands.push(Operand::Number(endpoint.id));
    operands.push(Operand::Family(endpoint.family));
    operands.push(Operand::Text(endpoint.address.as_bytes()));
    operands.push(Operand::Number(endpoint.service));
    operands
}

fn of_link(port: u64, subsystem: &Nqn) -> Operands<'_>
    ensures { values result.items
        ≡ number port ∷ name subsystem.now ∷ [] }
{
    let mut operands = ArrayVec::new();
    operands.push(Operand::Number(port));
    operands.push(Operand::Name(subsystem.as_bytes()));
    operands
}

fn of_allow<'a>(subsystem: &'a Nqn, host: &'a Nqn) -> Operands<'a>
    ensures { values result.items
        ≡ name subsystem.now ∷ name host.now ∷ [] }
{
    let mut operands = ArrayVec::new();
    operands.push(Operand::Name(subsystem.as_bytes()));
    operands.push(Operand::Name(host.as_bytes()));
    operands
}

fn of_state(port: u64, subsystem: &Nqn, group: u64, ana: AnaState) -> Operands<'_>
    ensures { values result.items
        ≡ number port ∷ name subsystem.now ∷ number group ∷ state ana ∷ [] }
{
    let mut operands = ArrayVec::new();
    operands.push(Operand::Number(port));
    operands.push(Operand::Name(subsystem.as_bytes()));
    operands.push(Operand::Number(group));
    operands.push(Operand::State(ana));
    operands
}
