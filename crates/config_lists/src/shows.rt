//! The shows of a configuration, as they are or as an edit of one makes them.
ghost use Rattle.std.specs.Prelude.{◌≡◌, ◌&&◌, ◌∷◌, ◌++◌, [], List, not, unwrap_or};
ghost use Rattle.std.specs.List.{list_any};
ghost use Rattle.config_lists.specs.Lists.{without};
ghost use Rattle.config_lists.specs.Show.{has_show, is_show_in, is_show_to, is_shown_of};
ghost use Rattle.config_lists.specs.declared.show.Show.{Show as ShowState};
ghost use Rattle.config_lists.specs.Shows.{is_left, shown_by, shows_after};

use crate::show::{Show, is_shown_of};
use std::marker::Model;

/// Shows, lent: those of a configuration, with one more after them or without one of them. So an edit that
/// shows a namespace or hides one copies none. A contract sees the list of them.
#[derive(Drop)]
pub struct Shows<'a> {
    pub(crate) listed: &'a [Show],
    pub(crate) change: ShowChange<'a>,
}

/// What an edit makes of shows.
#[derive(Clone, Copy)]
pub(crate) enum ShowChange<'a> {
    Nothing,
    More(NamedShow<'a>),
    Less(NamedShow<'a>),
}

/// A show by what it names. Its identifier is as an edit names it, so that no namespace may have it.
#[derive(Clone, Copy)]
pub(crate) struct NamedShow<'a> {
    subsystem: &'a [u8],
    nsid: u64,
    host: &'a [u8],
}

impl<'a> Model for Shows<'a> {
    ghost use Rattle.std.specs.Prelude.{List};
    ghost use Rattle.config_lists.specs.declared.show.Show.{Show};
    ghost use Rattle.config_lists.specs.Shows.{shows_after};

    ghost Value = { List Show };

    ghost view = { λ s. shows_after s.change s.listed.now };
}

impl<'a> Shows<'a> {
    /// These, as they are.
    pub fn of(listed: &'a [Show]) -> Shows<'a>
        ensures { result ≡ listed.now }
    {
        Shows {
            listed,
            change: ShowChange::Nothing,
        }
    }

    /// These, and after them the show of that namespace to that host.
    pub fn with(listed: &'a [Show], subsystem: &'a [u8], nsid: u64, host: &'a [u8]) -> Shows<'a>
        ensures { result ≡ listed.now
            ++ (record { subsystem = subsystem.now; nsid = nsid; host = host.now }) ∷ [] }
    {
        let show = NamedShow {
            subsystem,
            nsid,
            host,
        };
        Shows {
            listed,
            change: ShowChange::More(show),
        }
    }

    /// These without the show of that namespace to that host.
    pub fn without(listed: &'a [Show], subsystem: &'a [u8], nsid: u64, host: &'a [u8]) -> Shows<'a>
        ensures { result ≡ without (is_show_to subsystem.now nsid host.now) listed.now }
    {
        let show = NamedShow {
            subsystem,
            nsid,
            host,
        };
        Shows {
            listed,
            change: ShowChange::Less(show),
        }
    }

    /// Whether the host of that name is shown a namespace of that subsystem.
    pub fn is_shown_of(&self, subsystem: &[u8], host: &[u8]) -> bool
        ensures { result ≡ is_shown_of self.now subsystem.now host.now }
    {
        match self.change {
            ShowChange::Nothing => is_shown_of(self.listed, subsystem, host),
            ShowChange::More(show) => {
                show.is_in(subsystem, host) || is_shown_of(self.listed, subsystem, host)
            }
            ShowChange::Less(show) => is_shown_without(self.listed, show, subsystem, host),
        }
    }
}

impl<'a> ShowChange<'a> {
    /// Whether the host is shown the namespace after the change, where the change says it.
    pub(crate) fn says(&self, subsystem: &[u8], nsid: u64, host: &[u8]) -> Option<bool>
        ensures { (listed : List ShowState)
            → has_show (shows_after self.now listed) subsystem.now nsid host.now
            ≡ unwrap_or result (has_show listed subsystem.now nsid host.now) }
    {
        match self {
            ShowChange::More(show) if show.is_to(subsystem, nsid, host) => Some(true),
            ShowChange::Less(show) if show.is_to(subsystem, nsid, host) => Some(false),
            _ => None,
        }
    }
}

impl<'a> NamedShow<'a> {
    fn is_in(&self, subsystem: &[u8], host: &[u8]) -> bool
        ensures { result ≡ is_show_in subsystem.now host.now (shown_by self.now) }
    {
        self.subsystem == subsystem && self.host == host
    }

    fn is_to(&self, subsystem: &[u8], nsid: u64, host: &[u8]) -> bool
        ensures { result ≡ is_show_to subsystem.now nsid host.now (shown_by self.now) }
    {
        self.nsid == nsid && self.subsystem == subsystem && self.host == host
    }

    // Whether it is another one than this.
    fn is_another(&self, show: &Show) -> bool
        ensures { result ≡ is_left (shown_by self.now) show.now }
    {
        !(u64::from(show.nsid) == self.nsid
            && show.subsystem.is(self.subsystem)
            && show.host.is(self.host))
    }
}

/// Whether a show shows the host of that name a namespace of that subsystem.
pub(crate) fn is_show_in(show: &Show, subsystem: &[u8], host: &[u8]) -> bool
    ensures { result ≡ is_show_in subsystem.now host.now show.now }
{
    show.host.is(host) && show.subsystem.is(subsystem)
}

// Whether one of the shows but this one shows the host a namespace of the subsystem.
fn is_shown_without(listed: &[Show], left_out: NamedShow<'_>, subsystem: &[u8], host: &[u8]) -> bool
    ensures { result ≡ list_any
        (λ s. is_show_in subsystem.now host.now s && is_left (shown_by left_out.entry) s) listed.now }
{
    listed.iter().any(|show| is_show_in(show, subsystem, host) && left_out.is_another(show))
}
