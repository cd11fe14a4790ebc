//! The queues that commands use.
ghost use Rattle.std.specs.Prelude.{◌≤◌};
ghost use Rattle.host_link.specs.Session.{Connects};
ghost use Rattle.host_program.specs.Asking.{OpensAdmin};
ghost use Rattle.host_program.specs.Peers.{io_queue};

use crate::peers::Peers;
use host_link::{Link, LinkSession, SessionFault};
use std::alloc::Global;

/// The admin queue of a new controller, which is enabled.
pub(crate) fn open_admin<L: Link + Drop>(
    alloc: Global,
    link: L,
    peers: &Peers,
    turns: u64,
) -> Result<LinkSession<L>, SessionFault>
    ensures { OpensAdmin peers.now (L.state link) turns result }
{
    let params = peers.admin_queue()?;
    let mut session = LinkSession::connect(alloc, link, params, turns)?;
    session.enable()?;
    Ok(session)
}

/// An I/O queue of a controller, within the turns that its admin queue left.
pub(crate) fn open_io<A: Link + Drop, L: Link + Drop>(
    alloc: Global,
    link: L,
    peers: &Peers,
    admin: &LinkSession<A>,
    in_capsule: u32,
) -> Result<LinkSession<L>, SessionFault>
    requires { in_capsule ≤ 8192 }
    ensures { Connects (io_queue peers.now admin.now.cntlid in_capsule) (L.state link) admin.now.turns result }
{
    let params = peers.io_queue(admin.cntlid(), in_capsule)?;
    LinkSession::connect(alloc, link, params, admin.turns())
}
