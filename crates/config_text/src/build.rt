//! The edit of a command and its values.
ghost use Rattle.std.specs.Prelude.{◌≡◌, IfOk, Some, map, slice_get};
ghost use Rattle.config_text.specs.Command.{grammar_of};
ghost use Rattle.config_text.specs.EditLine.{IsEditOf, endpoint_values, namespace_values};
ghost use Rattle.config_text.specs.Operand.{form_of, name, text, values};
ghost use Rattle.config_text.specs.declared.operand.Form.TheVariants as form;
ghost use Rattle.config_text.specs.declared.command.EditCommand.TheVariants as command;

use crate::operand::{
    access_at, family_at, name_at, number_at, state_at, text_at, uuid_at, visibility_at,
};
use crate::{EditCommand, Operand};
use config_lists::{Edit, Endpoint, NewNamespace, Text};
use nvt_fields::Nqn;
use std::alloc::{AllocError, Global};

/// The edit of a command and the values that its line says.
pub(crate) fn build(
    alloc: Global,
    command: EditCommand,
    operands: &[Operand<'_>],
) -> Result<Edit, AllocError>
    requires { map form_of (values operands.now) ≡ (grammar_of command).forms }
    ensures { IfOk result (IsEditOf command (values operands.now)) }
{
    match command {
        EditCommand::SubsystemAdd => subsystem_add(alloc, operands),
        EditCommand::SubsystemSet => subsystem_set(alloc, operands),
        EditCommand::SubsystemDel => subsystem_del(alloc, operands),
        EditCommand::NamespaceAdd => namespace_add(alloc, operands),
        EditCommand::NamespaceSize => namespace_size(alloc, operands),
        EditCommand::NamespaceGroup => namespace_group(alloc, operands),
        EditCommand::NamespaceDel => namespace_del(alloc, operands),
        EditCommand::NamespaceView => namespace_view(alloc, operands),
        EditCommand::NamespaceShow => namespace_show(alloc, operands),
        EditCommand::NamespaceHide => namespace_hide(alloc, operands),
        EditCommand::PortAdd => port_add(alloc, operands),
        EditCommand::PortSet => port_set(alloc, operands),
        EditCommand::PortDel => Ok(port_del(operands)),
        EditCommand::LinkAdd => link_add(alloc, operands),
        EditCommand::LinkDel => link_del(alloc, operands),
        EditCommand::HostAdd => host_add(alloc, operands),
        EditCommand::HostDel => host_del(alloc, operands),
        EditCommand::AllowAdd => allow_add(alloc, operands),
        EditCommand::AllowDel => allow_del(alloc, operands),
        EditCommand::AnaSet => ana_set(alloc, operands),
        EditCommand::ReferralAdd => referral_add(alloc, operands),
        EditCommand::ReferralSet => referral_set(alloc, operands),
        EditCommand::ReferralDel => Ok(referral_del(operands)),
    }
}

fn subsystem_add(alloc: Global, operands: &[Operand<'_>]) -> Result<Edit, AllocError>
    requires { map form_of (values operands.now) ≡ (grammar_of command.SubsystemAdd).forms }
    ensures { IfOk result (IsEditOf command.SubsystemAdd (values operands.now)) }
{
    let nqn = read_name(alloc, operands, 0)?;
    Ok(Edit::SubsystemAdd {
        nqn,
        serial: read_text(alloc, operands, 1)?,
        access: access_at(operands, 2),
    })
}

fn subsystem_set(alloc: Global, operands: &[Operand<'_>]) -> Result<Edit, AllocError>
    requires { map form_of (values operands.now) ≡ (grammar_of command.SubsystemSet).forms }
    ensures { IfOk result (IsEditOf command.SubsystemSet (values operands.now)) }
{
    Ok(Edit::SubsystemSet {
        nqn: read_name(alloc, operands, 0)?,
        access: access_at(operands, 1),
    })
}

fn subsystem_del(alloc: Global, operands: &[Operand<'_>]) -> Result<Edit, AllocError>
    requires { map form_of (values operands.now) ≡ (grammar_of command.SubsystemDel).forms }
    ensures { IfOk result (IsEditOf command.SubsystemDel (values operands.now)) }
{
    Ok(Edit::SubsystemDel {
        nqn: read_name(alloc, operands, 0)?,
    })
}

fn host_add(alloc: Global, operands: &[Operand<'_>]) -> Result<Edit, AllocError>
    requires { map form_of (values operands.now) ≡ (grammar_of command.HostAdd).forms }
    ensures { IfOk result (IsEditOf command.HostAdd (values operands.now)) }
{
    Ok(Edit::HostAdd {
        nqn: read_name(alloc, operands, 0)?,
    })
}

fn host_del(alloc: Global, operands: &[Operand<'_>]) -> Result<Edit, AllocError>
    requires { map form_of (values operands.now) ≡ (grammar_of command.HostDel).forms }
    ensures { IfOk result (IsEditOf command.HostDel (values operands.now)) }
{
    Ok(Edit::HostDel {
        nqn: read_name(alloc, operands, 0)?,
    })
}

fn namespace_add(alloc: Global, operands: &[Operand<'_>]) -> Result<Edit, AllocError>
    requires { map form_of (values operands.now) ≡ (grammar_of command.NamespaceAdd).forms }
    ensures { IfOk result (IsEditOf command.NamespaceAdd (values operands.now)) }
{
    Ok(Edit::NamespaceAdd(NewNamespace {
        subsystem: read_name(alloc, operands, 0)?,
        nsid: number_at(operands, 1),
        disk: number_at(operands, 2),
        blocks: number_at(operands, 3),
        block_size: number_at(operands, 4),
        uuid: uuid_at(operands, 5),
        group: number_at(operands, 6),
    }))
}

fn namespace_size(alloc: Global, operands: &[Operand<'_>]) -> Result<Edit, AllocError>
    requires { map form_of (values operands.now) ≡ (grammar_of command.NamespaceSize).forms }
    ensures { IfOk result (IsEditOf command.NamespaceSize (values operands.now)) }
{
    Ok(Edit::NamespaceSize {
        subsystem: read_name(alloc, operands, 0)?,
        nsid: number_at(operands, 1),
        blocks: number_at(operands, 2),
    })
}

fn namespace_group(alloc: Global, operands: &[Operand<'_>]) -> Result<Edit, AllocError>
    requires { map form_of (values operands.now) ≡ (grammar_of command.NamespaceGroup).forms }
    ensures { IfOk result (IsEditOf command.NamespaceGroup (values operands.now)) }
{
    Ok(Edit::NamespaceGroup {
        subsystem: read_name(alloc, operands, 0)?,
        nsid: number_at(operands, 1),
        group: number_at(operands, 2),
    })
}

fn namespace_del(alloc: Global, operands: &[Operand<'_>]) -> Result<Edit, AllocError>
    requires { map form_of (values operands.now) ≡ (grammar_of command.NamespaceDel).forms }
    ensures { IfOk result (IsEditOf command.NamespaceDel (values operands.now)) }
{
    Ok(Edit::NamespaceDel {
        subsystem: read_name(alloc, operands, 0)?,
        nsid: number_at(operands, 1),
    })
}

fn namespace_view(alloc: Global, operands: &[Operand<'_>]) -> Result<Edit, AllocError>
    requires { map form_of (values operands.now) ≡ (grammar_of command.NamespaceView).forms }
    ensures { IfOk result (IsEditOf command.NamespaceView (values operands.now)) }
{
    Ok(Edit::NamespaceView {
        subsystem: read_name(alloc, operands, 0)?,
        nsid: number_at(operands, 1),
        visibility: visibility_at(operands, 2),
    })
}

fn namespace_show(alloc: Global, operands: &[Operand<'_>]) -> Result<Edit, AllocError>
    requires { map form_of (values operands.now) ≡ (grammar_of command.NamespaceShow).forms }
    ensures { IfOk result (IsEditOf command.NamespaceShow (values operands.now)) }
{
    let subsystem = read_name(alloc, operands, 0)?;
    Ok(Edit::NamespaceShow {
        subsystem,
        nsid: number_at(operands, 1),
        host: read_name(alloc, operands, 2)?,
    })
}

fn namespace_hide(alloc: Global, operands: &[Operand<'_>]) -> Result<Edit, AllocError>
    requires { map form_of (values operands.now) ≡ (grammar_of command.NamespaceHide).forms }
    ensures { IfOk result (IsEditOf command.NamespaceHide (values operands.now)) }
{
    let subsystem = read_name(alloc, operands, 0)?;
    Ok(Edit::NamespaceHide {
        subsystem,
        nsid: number_at(operands, 1),
        host: read_name(alloc, operands, 2)?,
    })
}

fn port_add(alloc: Global, operands: &[Operand<'_>]) -> Result<Edit, AllocError>
    requires { map form_of (values operands.now) ≡ (grammar_of command.PortAdd).forms }
    ensures { IfOk result (IsEditOf command.PortAdd (values operands.now)) }
{
    Ok(Edit::PortAdd(endpoint(alloc, operands)?))
}

fn port_set(alloc: Global, operands: &[Operand<'_>]) -> Result<Edit, AllocError>
    requires { map form_of (values operands.now) ≡ (grammar_of command.PortSet).forms }
    ensures { IfOk result (IsEditOf command.PortSet (values operands.now)) }
{
    Ok(Edit::PortSet(endpoint(alloc, operands)?))
}

fn referral_add(alloc: Global, operands: &[Operand<'_>]) -> Result<Edit, AllocError>
    requires { map form_of (values operands.now) ≡ (grammar_of command.ReferralAdd).forms }
    ensures { IfOk result (IsEditOf command.ReferralAdd (values operands.now)) }
{
    Ok(Edit::ReferralAdd(endpoint(alloc, operands)?))
}

fn referral_set(alloc: Global, operands: &[Operand<'_>]) -> Result<Edit, AllocError>
    requires { map form_of (values operands.now) ≡ (grammar_of command.ReferralSet).forms }
    ensures { IfOk result (IsEditOf command.ReferralSet (values operands.now)) }
{
    Ok(Edit::ReferralSet(endpoint(alloc, operands)?))
}

fn port_del(operands: &[Operand<'_>]) -> Edit
    requires { map form_of (values operands.now) ≡ (grammar_of command.PortDel).forms }
    ensures { IsEditOf command.PortDel (values operands.now) result }
{
    Edit::PortDel {
        id: number_at(operands, 0),
    }
}

fn referral_del(operands: &[Operand<'_>]) -> Edit
    requires { map form_of (values operands.now) ≡ (grammar_of command.ReferralDel).forms }
    ensures { IsEditOf command.ReferralDel (values operands.now) result }
{
    Edit::ReferralDel {
        id: number_at(operands, 0),
    }
}

fn link_add(alloc: Global, operands: &[Operand<'_>]) -> Result<Edit, AllocError>
    requires { map form_of (values operands.now) ≡ (grammar_of command.LinkAdd).forms }
    ensures { IfOk result (IsEditOf command.LinkAdd (values operands.now)) }
{
    Ok(Edit::LinkAdd {
        port: number_at(operands, 0),
        subsystem: read_name(alloc, operands, 1)?,
    })
}

fn link_del(alloc: Global, operands: &[Operand<'_>]) -> Result<Edit, AllocError>
    requires { map form_of (values operands.now) ≡ (grammar_of command.LinkDel).forms }
    ensures { IfOk result (IsEditOf command.LinkDel (values operands.now)) }
{
    Ok(Edit::LinkDel {
        port: number_at(operands, 0),
        subsystem: read_name(alloc, operands, 1)?,
    })
}

fn allow_add(alloc: Global, operands: &[Operand<'_>]) -> Result<Edit, AllocError>
    requires { map form_of (values operands.now) ≡ (grammar_of command.AllowAdd).forms }
    ensures { IfOk result (IsEditOf command.AllowAdd (values operands.now)) }
{
    let subsystem = read_name(alloc, operands, 0)?;
    Ok(Edit::AllowAdd {
        subsystem,
        host: read_name(alloc, operands, 1)?,
    })
}

fn allow_del(alloc: Global, operands: &[Operand<'_>]) -> Result<Edit, AllocError>
    requires { map form_of (values operands.now) ≡ (grammar_of command.AllowDel).forms }
    ensures { IfOk result (IsEditOf command.AllowDel (values operands.now)) }
{
    let subsystem = read_name(alloc, operands, 0)?;
    Ok(Edit::AllowDel {
        subsystem,
        host: read_name(alloc, operands, 1)?,
    })
}

fn ana_set(alloc: Global, operands: &[Operand<'_>]) -> Result<Edit, AllocError>
    requires { map form_of (values operands.now) ≡ (grammar_of command.AnaSet).forms }
    ensures { IfOk result (IsEditOf command.AnaSet (values operands.now)) }
{
    Ok(Edit::AnaSet {
        port: number_at(operands, 0),
        subsystem: read_name(alloc, operands, 1)?,
        group: number_at(operands, 2),
        state: state_at(operands, 3),
    })
}

fn endpoint(alloc: Global, operands: &[Operand<'_>]) -> Result<Endpoint, AllocError>
    requires { map form_of (values operands.now) ≡ (grammar_of command.PortAdd).forms }
    ensures { IfOk result (λ e. endpoint_values e ≡ values operands.now) }
{
    let id = number_at(operands, 0);
    let service = number_at(operands, 3);
    Ok(Endpoint {
        id,
        family: family_at(operands, 1),
        address: read_text(alloc, operands, 2)?,
        service,
    })
}

// The name at a place.
fn read_name(alloc: Global, operands: &[Operand<'_>], at: usize) -> Result<Nqn, AllocError>
    requires { slice_get (map form_of (values operands.now)) at ≡ Some form.Name }
    ensures { IfOk result (λ nqn. slice_get (values operands.now) at ≡ Some (name nqn)) }
{
    match Nqn::read(alloc, name_at(operands, at)) {
        Ok(nqn) => Ok(nqn),
        Err(_) => Err(AllocError),
    }
}

// The text at a place.
fn read_text(alloc: Global, operands: &[Operand<'_>], at: usize) -> Result<Text, AllocError>
    requires { slice_get (map form_of (values operands.now)) at ≡ Some form.Text }
    ensures { IfOk result (λ t. slice_get (values operands.now) at ≡ Some (text t)) }
{
    Ok(Text::from(Vec::from_slice(alloc, text_at(operands, at))?))
}
