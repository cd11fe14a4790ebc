//! What an edit is going to change, with all the memory for it.
ghost use Rattle.std.specs.Prelude.{◌≡◌, ◌<◌, ◌∷◌, ◌++◌, [], IfOk, vec_capacity, vec_len};

use config_lists::allow::Allow;
use config_lists::group_state::{AnaState, GroupState};
use config_lists::host::Host;
use config_lists::link::Link;
use config_lists::namespace::{Namespace, Setting};
use config_lists::port::Port;
use config_lists::show::Show;
use config_lists::subsystem::{Access, Subsystem};
use nvt_fields::Nqn;
use std::alloc::{AllocError, Global};

/// What an edit makes of the configuration that prepared it. It holds all the memory that this takes.
#[derive(Drop)]
pub struct Plan<'e> {
    pub(crate) change: ListChange<'e>,
}

impl<'e> Plan<'e> {
    pub(crate) fn new(change: ListChange<'e>) -> Plan<'e>
        ensures { result.change ≡ change.entry }
    {
        Plan { change }
    }
}

/// A change of one of the lists.
#[derive(Drop)]
pub(crate) enum ListChange<'e> {
    AddSubsystem(Addition<Subsystem>),
    SetAccess(&'e Nqn, Access),
    RemoveSubsystem(&'e Nqn),
    AddNamespace(Addition<Namespace>),
    SetNamespace(&'e Nqn, u64, Setting),
    RemoveNamespace(&'e Nqn, u64),
    AddPort(Addition<Port>),
    ReplacePort(Port),
    RemovePort(u64),
    AddLink(Addition<Link>),
    RemoveLink(u64, &'e Nqn),
    AddHost(Addition<Host>),
    SetLive(&'e Nqn, bool),
    AddAllow(Addition<Allow>),
    RemoveAllow(&'e Nqn, &'e Nqn),
    AddState(Addition<GroupState>),
    ReplaceState(u64, &'e Nqn, u64, AnaState),
    RemoveState(u64, &'e Nqn, u64),
    AddReferral(Addition<Port>),
    ReplaceReferral(Port),
    RemoveReferral(u64),
    AddShow(Addition<Show>),
    RemoveShow(&'e Nqn, u64, &'e Nqn),
}

/// An item that is to be added to a list, and room for the list with it.
#[derive(Drop)]
pub(crate) struct Addition<T> {
    item: T,
    // Holds nothing yet.
    list: Vec<T>,
    ghost empty: { vec_len list ≡ 0 },
}

impl<T: Drop> Addition<T> {
    /// An addition to a list that holds `there` items.
    pub(crate) fn new(alloc: Global, item: T, there: usize) -> Result<Addition<T>, AllocError>
        requires { there < usize.MAX }
        ensures same { IfOk result (λ addition. addition.item ≡ item) }
        ensures room { IfOk result (λ addition. there < vec_capacity addition.list) }
    {
        let list = Vec::with_capacity(alloc, there + 1)?;
        Ok(Addition { item, list })
    }

    /// Adds the item after those that are there. Takes no memory.
    pub(crate) fn add_to(self, items: &mut Vec<T>)
        requires { vec_len items.old < vec_capacity self.list }
        ensures { items.new.items ≡ items.old.items ++ self.item ∷ [] }
    {
        let Addition { item, mut list } = self;
        let Ok(()) = list.append(items) else {
            unreachable!()
        };
        list.push_reserved(item);
        *items = list;
    }
}
