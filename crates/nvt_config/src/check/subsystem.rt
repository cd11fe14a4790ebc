//! The reasons against an edit of the subsystems.
ghost use Rattle.std.specs.Prelude.{◌≡◌};
ghost use Rattle.config_lists.specs.declared.subsystem.Access.{Access};
ghost use Rattle.nvt_config.specs.Accept.{accept, verdict};

use super::refuse;
use crate::lists::Lists;
use config_lists::allow::is_subsystem_allowing;
use config_lists::link::is_subsystem_linked;
use config_lists::namespace::has_namespaces;
use config_lists::subsystem::{has_subsystem, is_discovery, is_serial};
use config_lists::text::Text;
use config_lists::{Edit, EditFault, Item, Value};
use nvt_fields::Nqn;

const SUBSYSTEMS_MAX: usize = 32;

impl Lists<'_> {
    pub(super) fn check_subsystem_add(&self, nqn: &Nqn, serial: &Text) -> Result<(), EditFault>
        ensures { (access : Access)
            → result ≡ verdict (accept self.now (Edit.SubsystemAdd nqn.now serial.now access)) }
    {
        refuse(is_discovery(nqn), EditFault::BadValue(Value::Nqn))?;
        refuse(!is_serial(serial), EditFault::BadValue(Value::Serial))?;
        refuse(
            has_subsystem(self.subsystems, nqn),
            EditFault::Exists(Item::Subsystem),
        )?;
        refuse(
            self.subsystems.len() >= SUBSYSTEMS_MAX,
            EditFault::Full(Item::Subsystem),
        )
    }

    pub(super) fn check_subsystem_set(&self, nqn: &Nqn) -> Result<(), EditFault>
        ensures { (access : Access)
            → result ≡ verdict (accept self.now (Edit.SubsystemSet nqn.now access)) }
    {
        self.wants_subsystem(nqn)
    }

    pub(super) fn check_subsystem_del(&self, nqn: &Nqn) -> Result<(), EditFault>
        ensures { result ≡ verdict (accept self.now (Edit.SubsystemDel nqn.now)) }
    {
        self.wants_subsystem(nqn)?;
        refuse(
            has_namespaces(self.namespaces, nqn.as_bytes()),
            EditFault::InUse(Item::Namespace),
        )?;
        refuse(
            is_subsystem_linked(self.links, nqn),
            EditFault::InUse(Item::Link),
        )?;
        refuse(
            is_subsystem_allowing(self.allows, nqn),
            EditFault::InUse(Item::Allow),
        )
    }
}
