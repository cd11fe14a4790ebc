//! A host's reading of the discovery log page.
ghost use Rattle.std.specs.Prelude.{◌≡◌, ◌≤◌, ◌%◌};
ghost use Rattle.host_pages.specs.Discover.{Answers, AsksInOrder, IsAsking, IsNew, again, asked, page_in, told};
ghost use Rattle.host_pages.specs.Verdict.{given};

use crate::DiscoveryPage;
use crate::fault::DiscoverFault;
use crate::get_log::GetLog;
use crate::progress::Progress;
use crate::verdict::{Verdict, judge, next_read};
use nvt_fields::Status;
use std::alloc::Global;
use std::marker::Model;

/// The most tries.
const TRIES_MAX: u8 = 8;

/// How far it is come.
#[derive(Clone, Copy, Debug, PartialEq, Eq)]
enum Stage {
    Asking,
    Settled,
    Ended(DiscoverFault),
}

/// A host's reading of the discovery log page as of one moment (Base 2.0, section 5.16.1.23): `ask` says
/// what to read next, and `answer` is told what came, until the page is there or cannot be had. A try reads
/// the header, the records, and the header again. It fails where GENCTR or NUMREC changed meanwhile, and
/// where a read of records is answered with Invalid Field in Command, as behind the end of a page that
/// became shorter. Eight tries may fail.
#[derive(Debug, Drop)]
pub struct Discover {
    // What this try has read of the page.
    page: Vec<u8>,
    // How many tries failed.
    failed: u8,
    stage: Stage,
}

impl Model for Discover {
    ghost use Rattle.host_pages.specs.Discover.{DiscoverState, Holds, state_by};

    ghost Value = { DiscoverState };

    ghost view = { λ d. state_by d.stage d.failed d.page.items };

    ghost invariant = { λ d. Holds d.stage d.failed d.page.items };
}

impl Discover {
    /// One that was told nothing yet.
    #[tactic(auto, using(crate::proofs::Trying::stands_at_first))]
    pub fn new(alloc: Global) -> Discover
        ensures { IsNew result }
    {
        Discover {
            page: Vec::new(alloc),
            failed: 0,
            stage: Stage::Asking,
        }
    }

    /// What to read next, at most 32,768 bytes. Once nothing more is to be read, that is the header.
    #[tactic(auto, using(crate::proofs::Ordered::asks_in_order))]
    pub fn ask(&self) -> GetLog
        ensures asked { result ≡ asked self.now }
        ensures order { AsksInOrder self.now result }
        ensures least { 4 ≤ result.len }
        ensures most { result.len ≤ 32768 }
        ensures dwords { result.len % 4 ≡ 0 }
    {
        match self.stage {
            Stage::Asking => next_read(&self.page),
            Stage::Settled | Stage::Ended(_) => next_read(&[]),
        }
    }

    /// Takes the answer to what `ask` says: the bytes that came, or the status. Once the page is there, or
    /// cannot be had, a further answer changes nothing, and is answered as the one before. After `Memory` it
    /// is as it was.
    #[tactic(auto, using(crate::proofs::Holding::begun_more, crate::proofs::Holding::page_settled))]
    pub fn answer(&mut self, answer: Result<&[u8], Status>) -> Result<Progress, DiscoverFault>
        ensures { Answers (given answer.entry) self.old result self.new }
    {
        match self.stage {
            Stage::Asking => {}
            Stage::Settled => return Ok(Progress::Done),
            Stage::Ended(fault) => return Err(fault),
        }
        match judge(&self.page, answer) {
            Verdict::GoesOn => {
                if let Ok(bytes) = answer {
                    self.page.extend_from_slice(bytes)?;
                }
                Ok(Progress::Asking)
            }
            Verdict::Settles => {
                self.stage = Stage::Settled;
                Ok(Progress::Done)
            }
            Verdict::Fails => self.try_again(),
            Verdict::Ends(fault) => {
                self.stage = Stage::Ended(fault);
                Err(fault)
            }
        }
    }

    /// The page, once it is there.
    pub fn page(&self) -> Option<DiscoveryPage<'_>>
        ensures { result ≡ page_in self.now }
    {
        match self.stage {
            Stage::Settled => DiscoveryPage::read(&self.page).ok(),
            Stage::Asking | Stage::Ended(_) => None,
        }
    }

    // Begins the next try, where there may be one.
    fn try_again(&mut self) -> Result<Progress, DiscoverFault>
        requires { IsAsking self.old }
        ensures again { self.new ≡ again self.old }
        ensures tells { result ≡ told self.new }
    {
        self.page.clear();
        self.failed += 1;
        if self.failed < TRIES_MAX {
            return Ok(Progress::Asking);
        }
        self.stage = Stage::Ended(DiscoverFault::Unsettled);
        Err(DiscoverFault::Unsettled)
    }
}
