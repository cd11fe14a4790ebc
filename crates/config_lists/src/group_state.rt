//! An ANA state: how the controllers on a port reach an ANA group of a subsystem.
ghost use Rattle.std.specs.Prelude.{◌≡◌, find};
ghost use Rattle.std.specs.List.{list_any};
ghost use Rattle.std.specs.Option.{option_copied};
ghost use Rattle.config_lists.specs.GroupState.{is_optimized, is_state_for, is_state_on, state_for, with_state};
ghost use Rattle.config_lists.specs.Lists.{changed_where, without};

use nvt_fields::Nqn;
use std::alloc::AllocError;

/// An asymmetric namespace access state (Base 2.0, section 8.1).
#[derive(Clone, Copy, PartialEq, Eq)]
pub enum AnaState {
    Optimized,
    NonOptimized,
    Inaccessible,
    PersistentLoss,
    Change,
}

impl AnaState {
    /// Whether it is the state where none was set.
    pub fn is_optimized(self) -> bool
        ensures { result ≡ is_optimized self }
    {
        match self {
            AnaState::Optimized => true,
            AnaState::NonOptimized
            | AnaState::Inaccessible
            | AnaState::PersistentLoss
            | AnaState::Change => false,
        }
    }
}

/// The state that was set on a port for an ANA group of a subsystem. No two of a configuration are
/// for the same; where there is none, the state is optimized.
#[derive(Drop)]
pub struct GroupState {
    /// The number of a port that is there.
    pub port: u16,
    /// The name of a subsystem that is served on the port.
    pub subsystem: Nqn,
    /// The group, from 1 to 32.
    pub group: u32,
    /// Another than optimized.
    pub state: AnaState,
}

impl GroupState {
    fn is_on(&self, port: u64, subsystem: &[u8]) -> bool
        ensures { result ≡ is_state_on port subsystem.now self.now }
    {
        u64::from(self.port) == port && self.subsystem.is(subsystem)
    }

    fn is_for(&self, port: u64, subsystem: &[u8], group: u64) -> bool
        ensures { result ≡ is_state_for port subsystem.now group self.now }
    {
        self.is_on(port, subsystem) && u64::from(self.group) == group
    }
}

impl Clone for GroupState {
    ghost is_clone = { λ state copy. copy ≡ state };

    fn clone(&self) -> Result<GroupState, AllocError> {
        Ok(GroupState {
            port: self.port,
            subsystem: self.subsystem.try_clone()?,
            group: self.group,
            state: self.state,
        })
    }
}

/// The state on that port of that group of that subsystem: optimized where none was set.
pub fn ana_state(states: &[GroupState], port: u64, subsystem: &[u8], group: u64) -> AnaState
    ensures { result ≡ state_for port subsystem.now group states.now }
{
    match find_state(states, port, subsystem, group) {
        Some(found) => found.state,
        None => AnaState::Optimized,
    }
}

fn find_state<'a>(
    states: &'a [GroupState],
    port: u64,
    subsystem: &[u8],
    group: u64,
) -> Option<&'a GroupState>
    ensures { option_copied result ≡ find (is_state_for port subsystem.now group) states.now }
{
    states
        .iter()
        .find(|state| state.is_for(port, subsystem, group))
}

/// Whether a state was set on that port for that group of that subsystem.
pub fn has_state(states: &[GroupState], port: u64, subsystem: &[u8], group: u64) -> bool
    ensures { result ≡ list_any (is_state_for port subsystem.now group) states.now }
{
    states
        .iter()
        .any(|state| state.is_for(port, subsystem, group))
}

/// Gives that group of that subsystem another state on that port, where one was set.
pub fn replace_state(
    states: &mut [GroupState],
    port: u64,
    subsystem: &[u8],
    group: u64,
    state: AnaState,
)
    ensures { states.new ≡ changed_where
        (is_state_for port subsystem.now group) (with_state state) states.old }
{
    for old in states.iter_mut() {
        if old.is_for(port, subsystem, group) {
            old.state = state;
        }
    }
}

/// Takes the state on that port of that group of that subsystem away.
pub fn remove_state(states: &mut Vec<GroupState>, port: u64, subsystem: &[u8], group: u64)
    ensures { states.new.items
        ≡ without (is_state_for port subsystem.now group) states.old.items }
{
    states.retain(|state| !state.is_for(port, subsystem, group));
}

/// Takes the states on that port of all groups of that subsystem away.
pub fn remove_states(states: &mut Vec<GroupState>, port: u64, subsystem: &[u8])
    ensures { states.new.items ≡ without (is_state_on port subsystem.now) states.old.items }
{
    states.retain(|state| !state.is_on(port, subsystem));
}
