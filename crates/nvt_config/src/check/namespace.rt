//! The reasons against an edit of the namespaces.
ghost use Rattle.std.specs.Prelude.{◌≡◌, find, is_none, length, nat_le, not, slice_get};
ghost use Rattle.uuid.specs.Parts.{is_nil_bytes};
ghost use Rattle.config_lists.specs.Namespace.{block_size_of, is_group, is_named, is_nsid};
ghost use Rattle.nvt_config.specs.Accept.{accept, are_bad_blocks, are_bad_blocks_of, is_over};
ghost use Rattle.nvt_config.specs.Accept.{refuse, verdict};
ghost use Rattle.nvt_config.specs.Configuration.{has_namespace, has_subsystem, has_uuid};
ghost use Rattle.nvt_config.specs.Configuration.{is_disk_used};

use super::refuse;
use crate::lists::Lists;
use config_lists::EditFault::{BadValue, Exists, NoSuch};
use config_lists::namespace::{
    BlockSize, find_namespace, has_namespace, has_uuid, is_disk_used, is_group, is_nsid,
};
use config_lists::subsystem::has_subsystem;
use config_lists::{Edit, EditFault, Item, NewNamespace, Value};
use nvt_fields::Nqn;

const UNIT: u128 = 512;

impl Lists<'_> {
    pub(super) fn check_namespace_add(&self, namespace: &NewNamespace) -> Result<(), EditFault>
        ensures { result ≡ verdict (accept self.now (Edit.NamespaceAdd namespace.now)) }
    {
        let subsystem = &namespace.subsystem;
        let (nsid, disk) = (namespace.nsid, namespace.disk);
        let (blocks, block_size) = (namespace.blocks, namespace.block_size);
        refuse(!is_nsid(nsid), BadValue(Value::Nsid))?;
        refuse(
            self.are_bad_blocks(disk, blocks, block_size),
            BadValue(Value::Blocks),
        )?;
        refuse(
            BlockSize::of(block_size).is_none(),
            BadValue(Value::BlockSize),
        )?;
        refuse(namespace.uuid.is_nil(), BadValue(Value::Uuid))?;
        refuse(!is_group(namespace.group), BadValue(Value::Group))?;
        refuse(
            !has_subsystem(self.subsystems, subsystem),
            NoSuch(Item::Subsystem),
        )?;
        refuse(disk >= self.units.len() as u64, NoSuch(Item::Disk))?;
        self.check_namespace_names(namespace)
    }

    // Whether another namespace has what is to be this one's own.
    fn check_namespace_names(&self, namespace: &NewNamespace) -> Result<(), EditFault>
        ensures { result ≡
            refuse (has_namespace self.now.namespaces namespace.now.subsystem namespace.now.nsid)
            (EditFault.Exists Item.Namespace) (
            refuse (has_uuid self.now.namespaces namespace.now.uuid)
            (EditFault.Exists Item.Uuid) (
            refuse (is_disk_used self.now.namespaces namespace.now.disk)
            EditFault.DiskInUse (Ok tt))) }
    {
        let subsystem = namespace.subsystem.as_bytes();
        refuse(
            has_namespace(self.namespaces, subsystem, namespace.nsid),
            Exists(Item::Namespace),
        )?;
        refuse(
            has_uuid(self.namespaces, &namespace.uuid),
            Exists(Item::Uuid),
        )?;
        refuse(
            is_disk_used(self.namespaces, namespace.disk),
            EditFault::DiskInUse,
        )
    }

    pub(super) fn check_namespace_size(
        &self,
        subsystem: &Nqn,
        nsid: u64,
        blocks: u64,
    ) -> Result<(), EditFault>
        ensures { result ≡ verdict
            (accept self.now (Edit.NamespaceSize subsystem.now nsid blocks)) }
    {
        refuse(
            self.are_bad_blocks_of(subsystem, nsid, blocks),
            BadValue(Value::Blocks),
        )?;
        self.wants_namespace(subsystem, nsid)
    }

    pub(super) fn check_namespace_group(
        &self,
        subsystem: &Nqn,
        nsid: u64,
        group: u64,
    ) -> Result<(), EditFault>
        ensures { result ≡ verdict
            (accept self.now (Edit.NamespaceGroup subsystem.now nsid group)) }
    {
        refuse(!is_group(group), BadValue(Value::Group))?;
        self.wants_namespace(subsystem, nsid)
    }

    pub(super) fn check_namespace_del(&self, subsystem: &Nqn, nsid: u64) -> Result<(), EditFault>
        ensures { result ≡ verdict (accept self.now (Edit.NamespaceDel subsystem.now nsid)) }
    {
        self.wants_namespace(subsystem, nsid)
    }

    // The subsystem and its namespace.
    pub(super) fn wants_namespace(&self, subsystem: &Nqn, nsid: u64) -> Result<(), EditFault>
        ensures { result ≡
            refuse (not (has_subsystem self.now.subsystems subsystem.now))
            (EditFault.NoSuch Item.Subsystem) (
            refuse (not (has_namespace self.now.namespaces subsystem.now nsid))
            (EditFault.NoSuch Item.Namespace) (Ok tt)) }
    {
        self.wants_subsystem(subsystem)?;
        refuse(
            !has_namespace(self.namespaces, subsystem.as_bytes(), nsid),
            NoSuch(Item::Namespace),
        )
    }

    fn are_bad_blocks_of(&self, subsystem: &Nqn, nsid: u64, blocks: u64) -> bool
        ensures { result ≡ are_bad_blocks_of self.now
            (find (is_named subsystem.now nsid) self.now.namespaces) blocks }
    {
        match find_namespace(self.namespaces, subsystem.as_bytes(), nsid) {
            Some(found) => {
                self.are_bad_blocks(u64::from(found.disk), blocks, found.block_size.bytes())
            }
            None => blocks == 0,
        }
    }

    fn are_bad_blocks(&self, disk: u64, blocks: u64, block_size: u64) -> bool
        ensures { result ≡ are_bad_blocks self.now disk blocks block_size }
    {
        blocks == 0 || self.is_over(disk, blocks, block_size)
    }

    // Whether the disk is there, and has fewer blocks.
    fn is_over(&self, disk: u64, blocks: u64, block_size: u64) -> bool
        ensures { result ≡ is_over (slice_get self.now.units disk) blocks block_size }
    {
        match self.units.get(disk as usize) {
            Some(units) => u128::from(*units) * UNIT < u128::from(blocks) * u128::from(block_size),
            None => false,
        }
    }
}
