//! When the next line of edits is taken, so that edits leave time for hosts.
ghost use Rattle.std.specs.Prelude.{◌≡◌, if◌then◌else◌};

/// Behind a line of edits, where hosts spoke lately, as much time passes before the next one is taken as the line took.
/// So edits take at most half of the time. Times are in microseconds.
#[derive(Clone, Copy)]
pub enum EditPace {
    /// A line may be taken.
    Free,
    /// A line was handed out at this time, and may still be worked on.
    Busy { since: u64 },
    /// No line is taken before this time.
    Rests { until: u64 },
}

impl EditPace {
    ghost use Rattle.nvt_ports.specs.EditPace.{is_timed, may_take, over_at};

    /// A line was handed out at this time.
    pub fn handed_out(&mut self, now: u64)
        ensures { self.new ≡ EditPace.Busy now }
    {
        *self = EditPace::Busy { since: now };
    }

    /// The next call began, at this time: what the line asked for is done.
    pub fn over(&mut self, now: u64)
        ensures { self.new ≡ over_at now self.old }
    {
        if let EditPace::Busy { since } = *self {
            let took = now.saturating_sub(since);
            *self = EditPace::Rests {
                until: now.saturating_add(took),
            };
        }
    }

    /// Whether the time is wanted to know if a line may be taken.
    pub fn is_timed(&self) -> bool
        ensures { result ≡ is_timed self.now }
    {
        !matches!(self, EditPace::Free)
    }

    /// Whether a line may be taken at this time, where hosts spoke lately or did not.
    pub fn may_take(&mut self, now: u64, has_hosts: bool) -> bool
        ensures may { result ≡ may_take now has_hosts self.old }
        ensures after { self.new ≡ (if result then EditPace.Free else self.old) }
    {
        let may_take = match *self {
            EditPace::Free => true,
            EditPace::Busy { .. } => !has_hosts,
            EditPace::Rests { until } => !has_hosts || now >= until,
        };
        if may_take {
            *self = EditPace::Free;
        }
        may_take
    }
}
