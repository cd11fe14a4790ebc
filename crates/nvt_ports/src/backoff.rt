//! When a socket that took nothing is tried again.
ghost use Rattle.std.specs.Prelude.{◌≡◌, ◌+◌, ◌-◌, ◌*◌, ◌==◌, ◌≤◌, min, if◌then◌else◌};

/// How many calls pass until a socket that took nothing is tried again: one, and then each time twice as many and one
/// more, up to 31.
#[derive(Clone, Copy)]
pub struct Backoff {
    pub left: u8,
    pub next: u8,
    ghost within: { next ≤ 31 },
}

impl Backoff {
    /// It is tried at once.
    pub fn new() -> Backoff
        ensures left { result.left ≡ 0 }
        ensures next { result.next ≡ 1 }
    {
        Backoff { left: 0, next: 1 }
    }

    /// Whether it is tried in this call.
    pub fn is_due(&self) -> bool
        ensures { result ≡ (self.now.left == 0) }
    {
        self.left == 0
    }

    /// A call passes in which it is not tried.
    pub fn pass(&mut self)
        ensures left { self.new.left ≡ self.old.left - 1 }
        ensures next { self.new.next ≡ self.old.next }
    {
        self.left = self.left.saturating_sub(1);
    }

    /// It was tried, and took so many bytes.
    pub fn tried(&mut self, took: usize)
        ensures left { self.new.left ≡ (if took == 0 then self.old.next else 0) }
        ensures next { self.new.next ≡ (if took == 0 then min (self.old.next * 2 + 1) 31 else 1) }
    {
        if took > 0 {
            *self = Backoff::new();
            return;
        }
        self.left = self.next;
        self.next = (self.next * 2 + 1).min(31);
    }
}
