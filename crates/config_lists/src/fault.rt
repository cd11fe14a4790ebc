//! Why an edit is refused.
ghost use Rattle.std.specs.Prelude.{◌≡◌, ◌+◌, ◌≤◌, ◌++◌, Some, length};
ghost use Rattle.config_lists.specs.Fault.{reply_of, word_of_item, word_of_value};

use std::alloc::AllocError;
use std::error::Error;
use std::fmt;

/// Why an edit is refused, in the order of the answers. Its text is the reply to the edit.
#[derive(Clone, Copy, Debug, PartialEq, Eq)]
pub enum EditFault {
    /// This value of the edit is out of its range.
    BadValue(Value),
    /// The list has no item of that name.
    NoSuch(Item),
    /// The list has an item of that name already.
    Exists(Item),
    /// A namespace is on the disk already.
    DiskInUse,
    /// An item of this list names the item.
    InUse(Item),
    /// The list has as many items as it may have.
    Full(Item),
    /// No memory was there for the change.
    Memory,
}

impl Error for EditFault {}

impl EditFault {
    /// Its text, in two parts: what is wrong, and the value or the item that it is wrong of, where there is one.
    pub fn parts(&self) -> (&'static str, &'static str)
        ensures text { result.0.now ++ result.1.now ≡ reply_of self.now }
        ensures len { length result.0.now + length result.1.now ≤ 32 }
    {
        match self {
            EditFault::BadValue(value) => ("refused BadValue ", value.word()),
            EditFault::NoSuch(item) => ("refused NoSuch ", item.word()),
            EditFault::Exists(item) => ("refused Exists ", item.word()),
            EditFault::DiskInUse => ("refused DiskInUse", ""),
            EditFault::InUse(item) => ("refused InUse ", item.word()),
            EditFault::Full(item) => ("refused Full ", item.word()),
            EditFault::Memory => ("refused Memory", ""),
        }
    }
}

impl fmt::Display for EditFault {
    ghost output = { λ fault. Some (reply_of fault) };

    fn fmt<W: fmt::Write>(&self, f: &mut fmt::Formatter<W>) -> fmt::Result {
        let (wrong, of) = self.parts();
        f.write_str(wrong)?;
        f.write_str(of)
    }
}

impl From<AllocError> for EditFault {
    ghost use Rattle.config_lists.specs.declared.fault.EditFault.TheVariants.{Memory};
    ghost use Rattle.std.specs.Prelude.{◌≡◌};

    ghost from_gives = { λ _ fault. fault ≡ Memory };

    fn from(_: AllocError) -> EditFault {
        Self::Memory
    }
}

/// A value of an edit.
#[derive(Clone, Copy, Debug, PartialEq, Eq)]
pub enum Value {
    Nqn,
    Serial,
    Nsid,
    Blocks,
    BlockSize,
    Uuid,
    Group,
    Port,
    Address,
    Service,
}

/// What an edit names: an item of a list of the configuration, a disk, or a namespace's UUID.
#[derive(Clone, Copy, Debug, PartialEq, Eq)]
pub enum Item {
    Subsystem,
    Disk,
    Namespace,
    Uuid,
    Port,
    Link,
    Host,
    Allow,
    Referral,
    Show,
}

impl Value {
    /// Its name.
    pub fn word(&self) -> &'static str
        ensures word { result.now ≡ word_of_value self.now }
        ensures len { length result.now ≤ 9 }
    {
        match self {
            Value::Nqn => "Nqn",
            Value::Serial => "Serial",
            Value::Nsid => "Nsid",
            Value::Blocks => "Blocks",
            Value::BlockSize => "BlockSize",
            Value::Uuid => "Uuid",
            Value::Group => "Group",
            Value::Port => "Port",
            Value::Address => "Address",
            Value::Service => "Service",
        }
    }
}

impl Item {
    /// Its name.
    pub fn word(&self) -> &'static str
        ensures word { result.now ≡ word_of_item self.now }
        ensures len { length result.now ≤ 9 }
    {
        match self {
            Item::Subsystem => "Subsystem",
            Item::Disk => "Disk",
            Item::Namespace => "Namespace",
            Item::Uuid => "Uuid",
            Item::Port => "Port",
            Item::Link => "Link",
            Item::Host => "Host",
            Item::Allow => "Allow",
            Item::Referral => "Referral",
            Item::Show => "Show",
        }
    }
}
