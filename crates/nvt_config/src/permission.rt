//! Which subsystem a host may use.
ghost use Rattle.std.specs.Prelude.{◌≡◌, ◌||◌};
ghost use Rattle.nvt_config.specs.Configuration.{has_allow};
ghost use Rattle.nvt_config.specs.Permission.{is_open_subsystem, may_use};

use crate::config::Config;
use config_lists::allow::has_allow;
use config_lists::link::has_link;
use config_lists::subsystem::has_open_subsystem;

impl Config {
    /// Whether the host of that name may use the subsystem of that name through the port: the two are
    /// linked, and the subsystem is open or allows the host. The host may be one that was never added.
    pub fn may_use(&self, host: &[u8], subsystem: &[u8], port: u16) -> bool
        ensures { result ≡ may_use self.now host.now subsystem.now port }
    {
        has_link(self.links(), u64::from(port), subsystem) && self.admits(host, subsystem)
    }

    // Whether the subsystem is open, or allows the host.
    fn admits(&self, host: &[u8], subsystem: &[u8]) -> bool
        ensures { result ≡ (is_open_subsystem self.now.subsystems subsystem.now
            || has_allow self.now.allows subsystem.now host.now) }
    {
        has_open_subsystem(self.subsystems(), subsystem)
            || has_allow(self.allows(), subsystem, host)
    }
}
