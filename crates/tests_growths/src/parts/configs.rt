//! The configuration: each kind of edit, and its copies.
use nvt_config::{
    Allow, Config, Edit, EditFault, GroupState, Host, Link, Namespace, NewFault, Port, Show,
    Subsystem, Text,
};
use std::alloc::{AllocError, Global};
use std::test::Fail;
use testkit_edits::growths::{EDITS, HOST, UNITS, edit_of, tell, used};
use testkit_edits::{A, Line, again, is_same};
use testkit_tables::{Outcome, Placed, check, check_rows, pass};

// Makes the edit of a line; whether it is accepted, and all is as before where it wants memory.
fn is_made(
    alloc: Global,
    config: &mut Config,
    line: Line<'_>,
    refused: &mut u32,
) -> Result<bool, AllocError> {
    let Some(edit) = edit_of(alloc, line)? else {
        return Ok(false);
    };
    is_applied(config, &edit, refused)
}

fn is_applied(config: &mut Config, edit: &Edit, refused: &mut u32) -> Result<bool, AllocError> {
    let before = config.try_clone()?;
    Ok(applies(config, &before, edit, refused))
}

fn applies(config: &mut Config, before: &Config, edit: &Edit, refused: &mut u32) -> bool {
    let checked = config.check(edit);
    let mut applied = config.apply(edit);
    if applied == Err(EditFault::Memory) {
        *refused = refused.saturating_add(1);
        if !is_same(config, before) {
            return false;
        }
        applied = config.apply(edit);
    }
    (checked, applied) == (Ok(()), Ok(()))
}

fn make_edits(alloc: Global, config: &mut Config, refused: &mut u32) -> Outcome {
    for (row, line) in EDITS.iter().enumerate() {
        let made = again!(*refused, AllocError, is_made(alloc, config, *line, refused));
        pass!(check(made == Ok(true), "this edit").in_row(row));
    }
    Ok(())
}

fn is_edited(config: &Config) -> bool {
    let lens = [
        config.units().len(),
        config.subsystems().len(),
        config.ports().len(),
        config.links().len(),
        config.hosts().len(),
        config.namespaces().len(),
        config.allows().len(),
        config.states().len(),
        config.referrals().len(),
        config.shows().len(),
    ];
    lens == [2, 1, 1, 1, 2, 1, 1, 1, 1, 1]
        && config.may_use(HOST, A, 1)
        && config.namespace(HOST, A, 1).is_some()
        && config.namespace(b"nqn.i", A, 1).is_none()
}

fn is_subsystem_copied(subsystem: &Subsystem) -> Result<bool, AllocError> {
    let copy = subsystem.clone()?;
    Ok(copy.nqn == subsystem.nqn)
}

fn is_text_copied(text: &Text, bytes: &[u8]) -> Result<bool, AllocError> {
    let copy = text.clone()?;
    Ok(copy.as_bytes() == bytes)
}

fn is_port_copied(port: &Port) -> Result<bool, AllocError> {
    let copy = port.clone()?;
    Ok(copy.address.as_bytes() == b"127.0.0.1".as_slice())
}

fn is_link_copied(link: &Link) -> Result<bool, AllocError> {
    let copy = link.clone()?;
    Ok(copy.subsystem == link.subsystem)
}

fn is_host_copied(host: &Host) -> Result<bool, AllocError> {
    let copy = host.clone()?;
    Ok(copy.nqn == host.nqn)
}

fn is_namespace_copied(namespace: &Namespace) -> Result<bool, AllocError> {
    let copy = namespace.clone()?;
    Ok(copy.subsystem == namespace.subsystem)
}

fn is_allow_copied(allow: &Allow) -> Result<bool, AllocError> {
    let copy = allow.clone()?;
    Ok(copy.subsystem == allow.subsystem && copy.host == allow.host)
}

fn is_state_copied(state: &GroupState) -> Result<bool, AllocError> {
    let copy = state.clone()?;
    Ok(copy.subsystem == state.subsystem)
}

fn is_show_copied(show: &Show) -> Result<bool, AllocError> {
    let copy = show.clone()?;
    Ok(copy.subsystem == show.subsystem && copy.host == show.host)
}

fn subsystems_are_copied(subsystems: &[Subsystem]) -> Result<bool, AllocError> {
    let mut are_copied = true;
    for subsystem in subsystems {
        are_copied &= is_subsystem_copied(subsystem)?;
        are_copied &= is_text_copied(&subsystem.serial, b"SN-A")?;
    }
    Ok(are_copied)
}

fn ports_are_copied(ports: &[Port]) -> Result<bool, AllocError> {
    let mut are_copied = true;
    for port in ports {
        are_copied &= is_port_copied(port)?;
    }
    Ok(are_copied)
}

fn items_are_copied(config: &Config) -> Result<bool, AllocError> {
    let subsystems = subsystems_are_copied(config.subsystems())?;
    let ports = ports_are_copied(config.ports())?;
    let referrals = ports_are_copied(config.referrals())?;
    Ok(subsystems && ports && referrals)
}

fn of_subsystems_are_copied(config: &Config) -> Result<bool, AllocError> {
    let mut are_copied = true;
    for namespace in config.namespaces() {
        are_copied &= is_namespace_copied(namespace)?;
    }
    for allow in config.allows() {
        are_copied &= is_allow_copied(allow)?;
    }
    for state in config.states() {
        are_copied &= is_state_copied(state)?;
    }
    for show in config.shows() {
        are_copied &= is_show_copied(show)?;
    }
    Ok(are_copied)
}

fn uses_are_copied(config: &Config) -> Result<bool, AllocError> {
    let mut are_copied = true;
    for link in config.links() {
        are_copied &= is_link_copied(link)?;
    }
    for host in config.hosts() {
        are_copied &= is_host_copied(host)?;
    }
    Ok(are_copied)
}

fn use_config(alloc: Global, config: &mut Config, refused: &mut u32) -> Outcome {
    pass!(make_edits(alloc, config, refused));
    let items = again!(*refused, AllocError, items_are_copied(config));
    let uses = again!(*refused, AllocError, uses_are_copied(config));
    let others = again!(*refused, AllocError, of_subsystems_are_copied(config));
    let rows = [
        is_edited(config),
        items == Ok(true),
        uses == Ok(true),
        others == Ok(true),
    ];
    check_rows(&rows, "the lists, and the copies of their items")
}

fn use_new(alloc: Global, refused: &mut u32) -> Result<Outcome, NewFault> {
    let mut config = Config::new(alloc, UNITS)?;
    Ok(use_config(alloc, &mut config, refused))
}

#[test]
fn configurations(rt: HostRuntime) -> Result<(), Fail> {
    let mut refused = 0u32;
    let answer = again!(refused, NewFault::Memory, use_new(rt.alloc(), &mut refused));
    tell(&rt, refused, used(answer))
}
