//! The reasons against an edit of the links, and of the ANA states that are set on them.
ghost use Rattle.std.specs.Prelude.{◌≡◌};
ghost use Rattle.config_lists.specs.declared.group_state.AnaState.{AnaState};
ghost use Rattle.nvt_config.specs.Accept.{accept, verdict};

use super::refuse;
use crate::lists::Lists;
use config_lists::link::has_link;
use config_lists::namespace::is_group;
use config_lists::{Edit, EditFault, Item, Value};
use nvt_fields::Nqn;

impl Lists<'_> {
    pub(super) fn check_link_add(&self, port: u64, subsystem: &Nqn) -> Result<(), EditFault>
        ensures { result ≡ verdict (accept self.now (Edit.LinkAdd port subsystem.now)) }
    {
        self.wants_port(port)?;
        self.wants_subsystem(subsystem)?;
        refuse(
            has_link(self.links, port, subsystem.as_bytes()),
            EditFault::Exists(Item::Link),
        )
    }

    pub(super) fn check_link_del(&self, port: u64, subsystem: &Nqn) -> Result<(), EditFault>
        ensures { result ≡ verdict (accept self.now (Edit.LinkDel port subsystem.now)) }
    {
        self.wants_link(port, subsystem)
    }

    pub(super) fn check_ana_set(
        &self,
        port: u64,
        subsystem: &Nqn,
        group: u64,
    ) -> Result<(), EditFault>
        ensures { (state : AnaState)
            → result ≡ verdict (accept self.now (Edit.AnaSet port subsystem.now group state)) }
    {
        refuse(!is_group(group), EditFault::BadValue(Value::Group))?;
        self.wants_link(port, subsystem)
    }
}
