//! What a host sees of a configuration.
ghost use Rattle.std.specs.Prelude.{◌≡◌, ◌≤◌, ◌+◌, ℕ, None, find, length, slice_index_or};
ghost use Rattle.config_lists.specs.Namespace.{is_named, nsid_max};
ghost use Rattle.nvt_config.specs.SeenBy.{seen_by, seen_by_strangers};
ghost use Rattle.nvt_config.specs.Seen.{ChangesShowsAlone, shows_made};

use crate::Lists;
use crate::config::Config;
use config_lists::group_state::GroupState;
use config_lists::{Edit, NamespaceTable, Shows};
use std::marker::Model;

/// A configuration as a host sees it, lent: with the namespaces that the host sees alone. A contract
/// sees a configuration.
#[derive(Drop)]
pub struct Seen<'a> {
    lists: Lists<'a>,
    // In the place of the shows of the lists.
    shows: Shows<'a>,
    host: &'a [u8],
}

impl<'a> Model for Seen<'a> {
    ghost use Rattle.nvt_config.specs.Configuration.{Configuration};
    ghost use Rattle.nvt_config.specs.SeenBy.{seen_by};

    ghost Value = { Configuration };

    ghost view = { λ s. seen_by (record s.lists { shows = s.shows }) s.host.now };
}

impl Config {
    /// The configuration as the host of that name sees it. The host may be one that was never added.
    pub fn seen_by<'a>(&'a self, host: &'a [u8]) -> Seen<'a>
        ensures { result ≡ seen_by self.now host.now }
    {
        self.seen_with(Shows::of(self.shows()), host)
    }

    /// The configuration as the host of that name would see it with these shows in the place of its own.
    pub fn seen_with<'a>(&'a self, shows: Shows<'a>, host: &'a [u8]) -> Seen<'a>
        ensures { result ≡ seen_by (record self.now { shows = shows.entry }) host.now }
    {
        Seen {
            lists: self.lists(),
            shows,
            host,
        }
    }

    /// The shows after an edit that shows a namespace or hides one, without a copy of any: after another
    /// edit they need not be these. With them the configuration is the one that such an edit makes, where
    /// it is accepted.
    pub fn shows_after<'a>(&'a self, edit: &'a Edit) -> Shows<'a>
        ensures shows { result ≡ shows_made self.now edit.now }
        ensures alone { ChangesShowsAlone self.now edit.now result }
    {
        match edit {
            Edit::NamespaceShow {
                subsystem,
                nsid,
                host,
            } => Shows::with(self.shows(), subsystem.as_bytes(), *nsid, host.as_bytes()),
            Edit::NamespaceHide {
                subsystem,
                nsid,
                host,
            } => Shows::without(self.shows(), subsystem.as_bytes(), *nsid, host.as_bytes()),
            _ => Shows::of(self.shows()),
        }
    }

    /// The configuration as a stranger sees it, which is shown nothing.
    pub fn seen_by_strangers(&self) -> Seen<'_>
        ensures { result ≡ seen_by_strangers self.now }
    {
        self.seen_with(Shows::of(&[]), &[])
    }
}

impl<'a> Seen<'a> {
    /// By identifier the namespaces of a subsystem that the host sees.
    pub fn table(&self, subsystem: &[u8]) -> NamespaceTable<'a>
        ensures found { (nsid : ℕ) → nsid ≤ nsid_max → slice_index_or result nsid None
            ≡ find (is_named subsystem.now nsid) self.now.namespaces }
        ensures len { length result ≡ nsid_max + 1 }
    {
        NamespaceTable::of(self.lists.namespaces, &self.shows, self.host, subsystem)
    }

    /// The ANA states that were set.
    pub fn states(&self) -> &'a [GroupState]
        ensures { result.now ≡ self.now.states }
    {
        self.lists.states
    }
}
