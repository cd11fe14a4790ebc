//! The edits of a configuration.
ghost use Rattle.config_lists.specs.Edit.{IsNamed};

use crate::group_state::AnaState;
use crate::namespace::Visibility;
use crate::port::Family;
use crate::subsystem::Access;
use crate::text::Text;
use nvt_fields::Nqn;
use uuid::Uuid;

/// One edit. Its numbers are as its line names them, so they may be out of range; one that names an
/// item and is out of range names none. The refusals stand in the order in which they are answered.
/// An edit that changes no value is accepted.
pub enum Edit {
    /// Adds a subsystem after those that are there. Refused: `BadValue` of `Nqn` for the discovery
    /// subsystem's name, of `Serial` for one that is not 1 to 20 bytes from 21h to 7Eh; `Exists` for
    /// the name of a subsystem that is there; `Full` where 32 subsystems are.
    SubsystemAdd {
        nqn: Nqn,
        serial: Text,
        access: Access,
    },
    /// Sets who may use a subsystem. Refused: `NoSuch` where no subsystem has the name.
    SubsystemSet {
        nqn: Nqn,
        access: Access,
    },
    /// Removes a subsystem. Refused: `NoSuch` where no subsystem has the name; `InUse` of
    /// `Namespace`, of `Link`, then of `Allow`, where one names it.
    SubsystemDel {
        nqn: Nqn,
    },
    /// Adds a namespace after those that are there; each host sees it. Refused: `BadValue` of `Nsid`
    /// for one outside 1 to 4,096, of `Blocks` for 0, or for more than the disk has, where that is
    /// there, of `BlockSize` for another than 512 and 4,096, of `Uuid` for the nil one, of `Group` for
    /// one outside 1 to 32; `NoSuch` of `Subsystem`, then of `Disk`, where there is none; `Exists` of
    /// `Namespace` for one of that subsystem and identifier, then of `Uuid` for that of a namespace of
    /// any subsystem; `DiskInUse` where a namespace is on the disk.
    NamespaceAdd(NewNamespace),
    /// Sets the size of a namespace, in blocks. Refused: `BadValue` of `Blocks` for 0, or for more
    /// than its disk has, where the namespace is there; `NoSuch` of `Subsystem`, then of `Namespace`,
    /// where there is none.
    NamespaceSize {
        subsystem: Nqn,
        nsid: u64,
        blocks: u64,
    },
    /// Puts a namespace into an ANA group. Refused: `BadValue` of `Group` for one outside 1 to 32;
    /// `NoSuch` of `Subsystem`, then of `Namespace`, where there is none.
    NamespaceGroup {
        subsystem: Nqn,
        nsid: u64,
        group: u64,
    },
    /// Removes a namespace, and its shows with it. Refused: `NoSuch` of `Subsystem`, then of
    /// `Namespace`, where there is none.
    NamespaceDel {
        subsystem: Nqn,
        nsid: u64,
    },
    /// Sets which hosts see a namespace; its shows stay. Refused: `NoSuch` of `Subsystem`, then of
    /// `Namespace`, where there is none.
    NamespaceView {
        subsystem: Nqn,
        nsid: u64,
        visibility: Visibility,
    },
    /// Shows a namespace to a host, after the shows that are there. Refused: `NoSuch` of `Subsystem`, of
    /// `Namespace`, then of `Host` where no live one has the name; `Exists` for a show that is there;
    /// `Full` where 1,024 shows are.
    NamespaceShow {
        subsystem: Nqn,
        nsid: u64,
        host: Nqn,
    },
    /// Ends a show. Refused: `NoSuch` of `Subsystem`, of `Namespace`, of `Host` where no live one has the
    /// name, then of `Show`, where there is none.
    NamespaceHide {
        subsystem: Nqn,
        nsid: u64,
        host: Nqn,
    },
    /// Adds a port after those that are there. Refused: `BadValue` of `Port` for an `id` outside 1 to
    /// 65,535, of `Address` for one that is not 1 to 256 bytes from 21h to 7Eh, of `Service` for one
    /// outside 1 to 65,535; `Exists` for the `id` of a port that is there; `Full` where 16 ports are.
    PortAdd(Endpoint),
    /// Sets where a port listens; it keeps its place and its links. Refused: `BadValue` as for
    /// `PortAdd`; `NoSuch` where no port has the `id`.
    PortSet(Endpoint),
    /// Removes a port. Refused: `NoSuch` where no port has the `id`; `InUse` of `Link` where a link
    /// names it.
    PortDel {
        id: u64,
    },
    /// Serves a subsystem on a port, after the links that are there. Refused: `NoSuch` of `Port`, then
    /// of `Subsystem`, where there is none; `Exists` for a link that is there.
    LinkAdd {
        port: u64,
        subsystem: Nqn,
    },
    /// Ends a link, and takes the ANA states away that were set on it. Refused: `NoSuch` of `Port`, of
    /// `Subsystem`, then of `Link`, where there is none.
    LinkDel {
        port: u64,
        subsystem: Nqn,
    },
    /// Adds a host; one that was there before comes back in its place, and another stands after those
    /// that are there. Refused: `Exists` for a live host of that name; `Full` for a new name where 256
    /// names are, live or not.
    HostAdd {
        nqn: Nqn,
    },
    /// Makes a host no longer live; its name keeps its place. Refused: `NoSuch` where no live host has
    /// the name; `InUse` of `Allow` where a subsystem allows it, then of `Show` where it is shown a
    /// namespace.
    HostDel {
        nqn: Nqn,
    },
    /// Lets a host use a subsystem that is closed, after the allows that are there. Refused: `NoSuch`
    /// of `Subsystem`, then of `Host` where no live one has the name; `Exists` for an allow that is
    /// there; `Full` where 1,024 allows are.
    AllowAdd {
        subsystem: Nqn,
        host: Nqn,
    },
    /// Ends an allow. Refused: `NoSuch` of `Subsystem`, of `Host` where no live one has the name, then
    /// of `Allow`, where there is none.
    AllowDel {
        subsystem: Nqn,
        host: Nqn,
    },
    /// Sets the state of an ANA group of a subsystem on a port that serves it. Refused: `BadValue` of
    /// `Group` for one outside 1 to 32; `NoSuch` of `Port`, of `Subsystem`, then of `Link`, where
    /// there is none.
    AnaSet {
        port: u64,
        subsystem: Nqn,
        group: u64,
        state: AnaState,
    },
    /// Adds a referral after those that are there. Refused: as `PortAdd`, with `Referral` in `Exists`
    /// and `Full`, where 16 referrals are.
    ReferralAdd(Endpoint),
    /// Sets where a referral leads; it keeps its place. Refused: as `PortSet`, with `Referral` in
    /// `NoSuch`.
    ReferralSet(Endpoint),
    /// Removes a referral. Refused: `NoSuch` where no referral has the `id`.
    ReferralDel {
        id: u64,
    },
}

impl Edit {
    /// What each edit promises. It does nothing: its contract is for who calls it.
    pub fn promise(&self)
        ensures { IsNamed self.now }
    {
        if let Edit::SubsystemAdd { nqn, .. } = self {
            nqn.promise();
        }
    }
}

// Written out, and not derived, so that whoever lets an edit fall proves one call.
impl Drop for Edit {
    fn drop(self) {
        match self {
            Edit::SubsystemAdd {
                nqn,
                serial,
                access: _,
            } => {
                drop(nqn);
                drop(serial);
            }
            Edit::SubsystemSet { nqn, access: _ }
            | Edit::SubsystemDel { nqn }
            | Edit::HostAdd { nqn }
            | Edit::HostDel { nqn } => drop(nqn),
            Edit::NamespaceAdd(namespace) => drop(namespace),
            Edit::NamespaceSize {
                subsystem,
                nsid: _,
                blocks: _,
            } => drop(subsystem),
            Edit::NamespaceGroup {
                subsystem,
                nsid: _,
                group: _,
            } => drop(subsystem),
            Edit::NamespaceDel { subsystem, nsid: _ } => drop(subsystem),
            Edit::NamespaceView {
                subsystem,
                nsid: _,
                visibility: _,
            } => drop(subsystem),
            Edit::NamespaceShow {
                subsystem,
                nsid: _,
                host,
            }
            | Edit::NamespaceHide {
                subsystem,
                nsid: _,
                host,
            } => {
                drop(subsystem);
                drop(host);
            }
            Edit::PortAdd(endpoint)
            | Edit::PortSet(endpoint)
            | Edit::ReferralAdd(endpoint)
            | Edit::ReferralSet(endpoint) => drop(endpoint),
            Edit::PortDel { id: _ } | Edit::ReferralDel { id: _ } => {}
            Edit::LinkAdd { port: _, subsystem } | Edit::LinkDel { port: _, subsystem } => {
                drop(subsystem);
            }
            Edit::AllowAdd { subsystem, host } | Edit::AllowDel { subsystem, host } => {
                drop(subsystem);
                drop(host);
            }
            Edit::AnaSet {
                port: _,
                subsystem,
                group: _,
                state: _,
            } => drop(subsystem),
        }
    }
}

/// A namespace that is to be added.
#[derive(Drop)]
pub struct NewNamespace {
    /// The name of its subsystem.
    pub subsystem: Nqn,
    pub nsid: u64,
    /// The number of its disk, counted from 0.
    pub disk: u64,
    /// Its size in blocks.
    pub blocks: u64,
    /// The bytes of a block.
    pub block_size: u64,
    pub uuid: Uuid,
    /// Its ANA group.
    pub group: u64,
}

/// Where a port listens, or a referral leads.
#[derive(Drop)]
pub struct Endpoint {
    /// The number of the port, or of the referral.
    pub id: u64,
    pub family: Family,
    pub address: Text,
    /// The TCP port number.
    pub service: u64,
}
