//! The ANA states of one subsystem on a port by their groups.
ghost use Rattle.std.specs.Prelude.{◌≡◌, ◌<◌, ℕ, length, slice_index_or};
ghost use Rattle.config_lists.specs.GroupState.{is_state_for, is_state_on, state_for};
ghost use Rattle.config_lists.specs.declared.group_state.AnaState.TheVariants.{Optimized};
ghost use Rattle.config_lists.specs.Tables.{IsEmptyTable, IsTable};

use crate::place::put_first;
use crate::{AnaState, GroupState};
use std::marker::Model;

/// One more than the greatest identifier that an ANA group may have.
pub const GROUP_END: u32 = 33;

/// By ANA group the states of one subsystem on a port (Base 2.0, section 8.1). A contract sees the
/// list of them, from group 0 on.
#[derive(Drop)]
pub struct StateTable<'a> {
    places: [Option<&'a GroupState>; GROUP_END as usize],
}

impl<'a> Model for StateTable<'a> {
    ghost use Rattle.std.specs.Prelude.{List, map};
    ghost use Rattle.std.specs.Option.{option_copied};
    ghost use Rattle.config_lists.specs.declared.group_state.AnaState.{AnaState};
    ghost use Rattle.config_lists.specs.GroupState.{state_or};

    ghost Value = { List AnaState };

    ghost view = { λ t. map (λ place. state_or (option_copied place)) t.places };
}

impl<'a> StateTable<'a> {
    /// Those of the states that were set in a configuration, of which the first of a group counts:
    /// optimized where none was set.
    pub fn of(states: &'a [GroupState], subsystem: &[u8], port: u16) -> StateTable<'a>
        ensures found { (group : ℕ) → group < 33
            → slice_index_or result group Optimized
            ≡ state_for port subsystem.now group states.now }
        ensures len { length result ≡ 33 }
    {
        let mut places = [None; GROUP_END as usize];
        set_places(&mut places, states, subsystem, port);
        StateTable { places }
    }

    /// The state of the group.
    pub fn get(&self, group: u32) -> AnaState
        ensures { result ≡ slice_index_or self.now group Optimized }
    {
        match self.places.get(group as usize) {
            Some(Some(state)) => state.state,
            _ => AnaState::Optimized,
        }
    }
}

// Sets the place of each state of the subsystem on the port, in a table that has none.
fn set_places<'a>(
    places: &mut [Option<&'a GroupState>],
    states: &'a [GroupState],
    subsystem: &[u8],
    port: u16,
)
    requires { IsEmptyTable places.old }
    ensures { IsTable (is_state_for port subsystem.now) states.now places.new }
{
    for state in states {
        if is_on(state, subsystem, port) {
            put_first(places, state.group as usize, state);
        }
    }
}

// Whether it is the state of a group of the subsystem on the port.
fn is_on(state: &GroupState, subsystem: &[u8], port: u16) -> bool
    ensures { result ≡ is_state_on port subsystem.now state.now }
{
    state.port == port && state.subsystem.is(subsystem)
}
