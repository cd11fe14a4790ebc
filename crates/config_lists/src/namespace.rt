//! A namespace: blocks that hosts read and write.
ghost use Rattle.std.specs.Prelude.{◌≡◌, ◌==◌, find};
ghost use Rattle.std.specs.List.{list_any};
ghost use Rattle.std.specs.Option.{option_copied};
ghost use Rattle.std.specs.Str.{bytes_eq};
ghost use Rattle.config_lists.specs.Lists.{changed_where, without};
ghost use Rattle.config_lists.specs.Namespace.{block_size_of, bytes_of, is_group, is_named, is_nsid, with_setting};

use nvt_fields::Nqn;
use std::alloc::AllocError;
use uuid::Uuid;

/// The greatest identifier that a namespace may have.
pub const NSID_MAX: u32 = 4_096;

const GROUP_MAX: u64 = 32;

/// The size of a logical block.
#[derive(Clone, Copy, PartialEq, Eq)]
pub enum BlockSize {
    Bytes512,
    Bytes4096,
}

impl BlockSize {
    /// The block size of so many bytes, if there is one.
    pub fn of(bytes: u64) -> Option<BlockSize>
        ensures { result ≡ block_size_of bytes }
    {
        match bytes {
            512 => Some(BlockSize::Bytes512),
            4_096 => Some(BlockSize::Bytes4096),
            _ => None,
        }
    }

    /// How many bytes a block has.
    pub fn bytes(self) -> u64
        ensures { result ≡ bytes_of self }
    {
        match self {
            BlockSize::Bytes512 => 512,
            BlockSize::Bytes4096 => 4_096,
        }
    }
}

/// Which hosts see a namespace.
#[derive(Clone, Copy, PartialEq, Eq)]
pub enum Visibility {
    /// Each host that may use its subsystem.
    All,
    /// The hosts that shows name.
    Named,
}

/// Blocks that hosts read and write, on a disk of their own (Base 2.0, section 3.2.1).
#[derive(Drop)]
pub struct Namespace {
    /// The name of a subsystem that is there.
    pub subsystem: Nqn,
    /// NSID, from 1 to 4,096; no two namespaces of a subsystem have the same.
    pub nsid: u32,
    /// The number of its disk, counted from 0; no two namespaces have the same.
    pub disk: u16,
    /// Its size in blocks, 1 or more, which fit on its disk.
    pub blocks: u64,
    pub block_size: BlockSize,
    /// Not nil; no two namespaces have the same.
    pub uuid: Uuid,
    /// Its ANA group, from 1 to 32.
    pub group: u32,
    pub visibility: Visibility,
}

/// What can be set of a namespace that is there.
#[derive(Clone, Copy)]
pub enum Setting {
    /// Its size in blocks.
    Blocks(u64),
    /// Its ANA group.
    Group(u32),
    /// Which hosts see it.
    Visibility(Visibility),
}

impl Namespace {
    pub(crate) fn has_name(&self, subsystem: &[u8], nsid: u64) -> bool
        ensures { result ≡ is_named subsystem.now nsid self.now }
    {
        self.subsystem.is(subsystem) && u64::from(self.nsid) == nsid
    }

    fn set(&mut self, value: Setting)
        ensures { self.new ≡ with_setting value self.old }
    {
        match value {
            Setting::Blocks(blocks) => self.blocks = blocks,
            Setting::Group(group) => self.group = group,
            Setting::Visibility(visibility) => self.visibility = visibility,
        }
    }
}

impl Clone for Namespace {
    ghost is_clone = { λ namespace copy. copy ≡ namespace };

    fn clone(&self) -> Result<Namespace, AllocError> {
        Ok(Namespace {
            subsystem: self.subsystem.try_clone()?,
            nsid: self.nsid,
            disk: self.disk,
            blocks: self.blocks,
            block_size: self.block_size,
            uuid: self.uuid,
            group: self.group,
            visibility: self.visibility,
        })
    }
}

/// Whether a namespace may have this identifier: 1 to 4,096.
pub fn is_nsid(n: u64) -> bool
    ensures { result ≡ is_nsid n }
{
    (1..=u64::from(NSID_MAX)).contains(&n)
}

/// Whether an ANA group may have this identifier: 1 to 32.
pub fn is_group(n: u64) -> bool
    ensures { result ≡ is_group n }
{
    (1..=GROUP_MAX).contains(&n)
}

/// The namespace of that subsystem and that identifier, if it is there.
pub fn find_namespace<'a>(
    namespaces: &'a [Namespace],
    subsystem: &[u8],
    nsid: u64,
) -> Option<&'a Namespace>
    ensures { option_copied result ≡ find (is_named subsystem.now nsid) namespaces.now }
{
    namespaces.iter().find(|n| n.has_name(subsystem, nsid))
}

/// Whether the namespace of that subsystem and that identifier is there.
pub fn has_namespace(namespaces: &[Namespace], subsystem: &[u8], nsid: u64) -> bool
    ensures { result ≡ list_any (is_named subsystem.now nsid) namespaces.now }
{
    namespaces.iter().any(|n| n.has_name(subsystem, nsid))
}

/// Whether the subsystem of that name has a namespace.
pub fn has_namespaces(namespaces: &[Namespace], subsystem: &[u8]) -> bool
    ensures { result ≡ list_any (λ n. bytes_eq n.subsystem subsystem.now) namespaces.now }
{
    namespaces.iter().any(|n| n.subsystem.is(subsystem))
}

/// Whether a namespace has that UUID.
pub fn has_uuid(namespaces: &[Namespace], uuid: &Uuid) -> bool
    ensures { result ≡ list_any (λ n. bytes_eq n.uuid uuid.now) namespaces.now }
{
    namespaces.iter().any(|n| n.uuid == *uuid)
}

/// Whether a namespace is on the disk of that number.
pub fn is_disk_used(namespaces: &[Namespace], disk: u64) -> bool
    ensures { result ≡ list_any (λ n. n.disk == disk) namespaces.now }
{
    namespaces.iter().any(|n| u64::from(n.disk) == disk)
}

/// Sets a value of the namespace of that subsystem and that identifier.
pub fn set_namespace(namespaces: &mut [Namespace], subsystem: &Nqn, nsid: u64, value: Setting)
    ensures { namespaces.new
        ≡ changed_where (is_named subsystem.now nsid) (with_setting value) namespaces.old }
{
    for namespace in namespaces.iter_mut() {
        if namespace.has_name(subsystem.as_bytes(), nsid) {
            namespace.set(value);
        }
    }
}

/// Takes the namespace of that subsystem and that identifier away.
pub fn remove_namespace(namespaces: &mut Vec<Namespace>, subsystem: &Nqn, nsid: u64)
    ensures { namespaces.new.items
        ≡ without (is_named subsystem.now nsid) namespaces.old.items }
{
    namespaces.retain(|n| !n.has_name(subsystem.as_bytes(), nsid));
}
