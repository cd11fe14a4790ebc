//! Whether what is kept for a host is sent now, joined with what may come, or waits.
ghost use Rattle.std.specs.Prelude.{◌≡◌};

/// The most bytes that are kept for a host.
pub const KEPT_MAX: usize = 393_216;

/// So many bytes are sent although more may be given to the same host in the next turn.
pub const MUCH: usize = 196_608;

/// So many bytes are sent at once where nothing is kept, rather than kept and joined with others.
pub const LARGE: usize = 65_536;

/// What is known of a host as a call begins.
#[derive(Clone, Copy)]
pub struct Standing {
    /// How many bytes wait to be sent to it.
    pub kept: usize,
    /// How many more there is room for.
    pub room: usize,
    /// How many were taken for it since the call before.
    pub taken: usize,
    /// Whether all that it sent is answered, so that it is given nothing more before it sends again.
    pub is_answered: bool,
    /// Whether its socket is tried in this call: it took something the last time, or was left alone for long enough.
    pub is_due: bool,
}

/// What becomes of the bytes that wait.
#[derive(Clone, Copy, PartialEq, Eq)]
pub enum Sending {
    /// None wait.
    Nothing,
    /// They are sent, as far as the socket takes them.
    Now,
    /// They wait for a call, since more may come to be sent with them.
    Joins,
    /// The socket took nothing the last time, and is not tried yet.
    Waits,
}

/// What becomes of bytes that are offered.
#[derive(Clone, Copy, PartialEq, Eq)]
pub enum Taking {
    /// None is taken.
    Nothing,
    /// They go to the socket, as far as it takes them.
    Directly,
    /// They are kept, as far as there is room.
    Kept,
}

impl Standing {
    ghost use Rattle.nvt_ports.specs.Sending.{Decides, Takes, may_join};

    /// What becomes of the bytes that wait. They are joined only where some were taken since the call before, there is room
    /// for more, they are not many, and the host still has something to be answered.
    pub fn sending(self) -> Sending
        ensures { Decides result self }
    {
        if self.kept == 0 {
            return Sending::Nothing;
        }
        if self.may_join() {
            return Sending::Joins;
        }
        if self.is_due {
            Sending::Now
        } else {
            Sending::Waits
        }
    }

    fn may_join(self) -> bool
        ensures { result ≡ may_join self }
    {
        self.taken > 0 && self.room > 0 && self.kept < MUCH && !self.is_answered
    }

    /// What becomes of so many bytes that are offered. Many go to the socket at once where none wait.
    pub fn taking(self, offered: usize) -> Taking
        ensures { Takes offered result self }
    {
        if offered == 0 {
            return Taking::Nothing;
        }
        if offered < LARGE || self.kept > 0 {
            return Taking::Kept;
        }
        if self.is_due {
            Taking::Directly
        } else {
            Taking::Nothing
        }
    }
}
