//! Which namespaces of a subsystem a host sees.
ghost use Rattle.std.specs.Prelude.{◌≡◌, ◌&&◌};
ghost use Rattle.std.specs.Str.{bytes_eq};
ghost use Rattle.config_lists.specs.Show.{has_show, is_seen};
ghost use Rattle.config_lists.specs.Onlooker.{nsids_shown};

use crate::namespace::is_nsid;
use crate::show::{Show, has_show};
use crate::shows::{ShowChange, Shows, is_show_in};
use crate::{Namespace, NsidSet};
use std::marker::Model;

/// A host that looks at the namespaces of a subsystem. What it is shown of them is found by one walk over the
/// shows, however many namespaces it looks at.
#[derive(Drop)]
pub(crate) struct Onlooker<'a> {
    listed: &'a [Show],
    change: ShowChange<'a>,
    host: &'a [u8],
    subsystem: &'a [u8],
    // By the shows that are listed.
    shown: NsidSet,
}

impl<'a> Model for Onlooker<'a> {
    ghost use Rattle.std.specs.Prelude.{◌≡◌};
    ghost use Rattle.config_lists.specs.Onlooker.{Looking, nsids_shown};
    ghost use Rattle.config_lists.specs.Shows.{shows_after};

    ghost Value = { Looking };

    ghost view = { λ v. record {
      shows = shows_after v.change v.listed.now;
      host = v.host.now;
      subsystem = v.subsystem.now;
    } };

    ghost invariant = { λ v. v.shown ≡ nsids_shown v.listed.now v.host.now v.subsystem.now };
}

impl<'a> Onlooker<'a> {
    /// The host of that name, which is shown namespaces by these shows.
    pub(crate) fn new(shows: &Shows<'a>, host: &'a [u8], subsystem: &'a [u8]) -> Onlooker<'a>
        ensures { result ≡ record { shows = shows.now; host = host.now; subsystem = subsystem.now } }
    {
        Onlooker {
            listed: shows.listed,
            change: shows.change,
            host,
            subsystem,
            shown: nsids_shown(shows.listed, host, subsystem),
        }
    }

    /// Whether it is a namespace of the subsystem, and the host sees it.
    pub(crate) fn sees(&self, namespace: &Namespace) -> bool
        ensures { result ≡ (bytes_eq namespace.now.subsystem self.now.subsystem
            && is_seen self.now.shows self.now.host namespace.now) }
    {
        namespace.subsystem.is(self.subsystem)
            && (namespace.visibility.is_for_all() || self.is_shown(namespace.nsid))
    }

    // Whether the host is shown the subsystem's namespace of that identifier. The set has no identifier that
    // no namespace may have.
    fn is_shown(&self, nsid: u32) -> bool
        ensures { result ≡ has_show self.now.shows self.now.subsystem nsid self.now.host }
    {
        let number = u64::from(nsid);
        if let Some(is_shown) = self.change.says(self.subsystem, number, self.host) {
            return is_shown;
        }
        if is_nsid(number) {
            self.shown.has(nsid)
        } else {
            has_show(self.listed, self.subsystem, number, self.host)
        }
    }
}

// The identifiers of the subsystem's namespaces that the host is shown.
fn nsids_shown(shows: &[Show], host: &[u8], subsystem: &[u8]) -> NsidSet
    ensures { result ≡ nsids_shown shows.now host.now subsystem.now }
{
    let mut shown = NsidSet::new();
    for show in shows {
        if is_show_in(show, subsystem, host) {
            shown.insert(show.nsid);
        }
    }
    shown
}
