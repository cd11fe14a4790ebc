//! What the rules keep.
ghost use Rattle.nvt_config.specs.Accept.{AcceptedStaysValid};
ghost use Rattle.nvt_config.specs.SeenBy.{SeesWhatIsShown};
ghost use Rattle.nvt_config.specs.Valid.{NamespacesAreFew};

/// Whatever edit a configuration accepts, what is true of each stays true. No list is over its
/// limit: 32 subsystems, 16 ports, 256 hosts that were ever added, 1,024 allows, 16 referrals, 1,024
/// shows; and so there are at most 256 namespaces, each of which has a disk of its own. Each value is
/// sound, and each namespace fits on its disk. No two items of a list have the same name, and no two
/// namespaces the same UUID. What an item names is there: the subsystem and the disk of a namespace,
/// the port and the subsystem of a link, the subsystem and the live host of an allow, the link of an
/// ANA state, the namespace and the live host of a show. This is a fact of the rules; a call does
/// nothing.
pub fn accepted_stays_valid()
    ensures stays { AcceptedStaysValid }
    ensures few { NamespacesAreFew }
{}

/// Whatever a configuration holds, a host sees exactly the namespaces of it that each host sees, and
/// those that it is shown. What it sees is a configuration itself. This is a fact of the definitions; a
/// call does nothing.
pub fn hosts_see_what_is_shown()
    ensures { SeesWhatIsShown }
{}
