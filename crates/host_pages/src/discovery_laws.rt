//! Laws of what a host reads, in the words of the subject. Each of these functions does nothing: its contract
//! is the law, for whatever answers there were.
ghost use Rattle.host_pages.specs.DiscoveryLaws.{PagesAreOfOneMoment};

/// Where the answers are what a target's page shows, at moments that never go back, and GENCTR counts its
/// changes, the page that is had is the one that stood at each read of its try.
#[tactic(auto, using(crate::proofs::OneMoment::pages_are_of_one_moment))]
pub fn pages_are_of_one_moment()
    ensures { PagesAreOfOneMoment }
{}
