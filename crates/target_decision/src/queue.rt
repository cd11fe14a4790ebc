//! A submission queue (Base 2.0, section 3.3.3.2).
ghost use Rattle.std.specs.Prelude.{◌≡◌};
ghost use Rattle.target_decision.specs.Queue.{new_queue, next_head, next_head_of, responded};

/// The submission queue that a Connect made.
#[derive(Clone, Copy)]
pub struct SubmissionQueue {
    /// Its size, 0's based: 1 to 63.
    pub sqsize: u16,
    /// The number of responses sent since the Connect, its own included, modulo the queue's size.
    pub head: u16,
}

impl SubmissionQueue {
    /// The queue before the response to its Connect.
    pub(crate) fn new(sqsize: u16) -> SubmissionQueue
        ensures { result ≡ new_queue sqsize }
    {
        SubmissionQueue { sqsize, head: 0 }
    }

    /// The submission queue head after one more response.
    pub(crate) fn next_head(&self) -> u16
        ensures { result ≡ next_head_of self.now }
    {
        next_head(self.sqsize, self.head)
    }

    /// Counts one more response.
    pub(crate) fn responded(&mut self)
        ensures { self.new ≡ responded self.old }
    {
        self.head = self.next_head();
    }
}

/// The submission queue head after one more response: it goes round behind the queue's size.
pub(crate) fn next_head(sqsize: u16, head: u16) -> u16
    ensures { result ≡ next_head sqsize head }
{
    if head >= sqsize { 0 } else { head + 1 }
}
