//! Who may have something to say.
ghost use Rattle.std.specs.Prelude.{◌≡◌, ◌<◌};

use crate::SLOTS;

/// The most ports of a configuration.
pub const PORTS_MAX: usize = 16;

/// The most connections for lines of edits at a time.
pub const EDITORS_MAX: usize = 16;

/// How many speakers there are: the slots, the ports, the control port and its connections.
pub const SPEAKERS: usize = SLOTS + PORTS_MAX + 1 + EDITORS_MAX;

// The numbers of the first of each kind, in a round of all.
const FIRST_PORT: u8 = 64;

const CONTROL: u8 = 80;

const FIRST_EDITOR: u8 = 81;

const NOBODY: u8 = 97;

/// A socket that is tried in its turn; where there is none, nothing comes of it.
#[derive(Clone, Copy, PartialEq, Eq)]
pub enum Speaker {
    /// The host of a slot.
    Host(usize),
    /// A listener for hosts, by its place among them.
    Port(usize),
    /// The listener for lines of edits.
    Control,
    /// A connection for lines of edits, by its place.
    Editor(usize),
}

impl Speaker {
    ghost use Rattle.nvt_ports.specs.Speaker.{number_of, patience_of, speaker_of};

    /// Its place in a round of all, from 0; and the number of speakers where there is no such one.
    pub fn number(self) -> u8
        ensures number { result ≡ number_of self }
        ensures back { result < 97 → speaker_of result ≡ self }
    {
        match self {
            Speaker::Host(slot) if slot < SLOTS => slot as u8,
            Speaker::Port(place) if place < PORTS_MAX => FIRST_PORT + place as u8,
            Speaker::Control => CONTROL,
            Speaker::Editor(place) if place < EDITORS_MAX => FIRST_EDITOR + place as u8,
            _ => NOBODY,
        }
    }

    /// The speaker at this place of a round of all.
    pub fn of(number: u8) -> Speaker
        ensures speaker { result ≡ speaker_of number }
        ensures back { number < 97 → number_of result ≡ number }
    {
        if number < FIRST_PORT {
            Speaker::Host(number as usize)
        } else if number < CONTROL {
            Speaker::Port((number - FIRST_PORT) as usize)
        } else if number < FIRST_EDITOR {
            Speaker::Control
        } else {
            Speaker::Editor((number - FIRST_EDITOR) as usize)
        }
    }

    /// How often it is tried in vain, once it spoke, until it counts as silent. A listener costs eight times as much.
    pub fn patience(self) -> u16
        ensures { result ≡ patience_of self }
    {
        match self {
            Speaker::Host(_) | Speaker::Editor(_) => 4_096,
            Speaker::Port(_) | Speaker::Control => 64,
        }
    }
}
