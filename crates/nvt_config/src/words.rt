//! What log pages and commands ask of a configuration.
ghost use Rattle.std.specs.Prelude.{◌≡◌, find};
ghost use Rattle.std.specs.Option.{option_copied};
ghost use Rattle.config_lists.specs.GroupState.{state_for};
ghost use Rattle.config_lists.specs.Namespace.{is_named};
ghost use Rattle.nvt_config.specs.SeenBy.{seen_by};
ghost use Rattle.nvt_config.specs.Valid.{IsValid};

use crate::config::Config;
use config_lists::group_state::{AnaState, ana_state};
use config_lists::namespace::Namespace;
use config_lists::show::find_seen;

impl Config {
    /// The namespace of that subsystem and that identifier, if it is there and the host of that name sees
    /// it. The host may be one that was never added.
    pub fn namespace(&self, host: &[u8], subsystem: &[u8], nsid: u32) -> Option<&Namespace>
        ensures found { let seen = seen_by self.now host.now in
            option_copied result ≡ find (is_named subsystem.now nsid) seen.namespaces }
        ensures valid { IsValid self.now }
    {
        let nsid = u64::from(nsid);
        find_seen(self.namespaces(), self.shows(), host, subsystem, nsid)
    }

    /// The state on that port of that group of that subsystem: optimized where none was set.
    pub fn ana_state(&self, port: u16, subsystem: &[u8], group: u32) -> AnaState
        ensures { result ≡ state_for port subsystem.now group self.now.states }
    {
        ana_state(self.states(), u64::from(port), subsystem, u64::from(group))
    }
}
