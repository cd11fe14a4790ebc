//! Prints without waiting for whoever reads.
ghost use Rattle.std.specs.Prelude.{◌≤◌, IfOk, length};

use crate::network::Channel;
use libc::net::{POLLOUT, poll};
use libc::types::pollfd;
use std::io::{self, ErrorKind};

/// Prints as many of the first bytes as go at once, and answers how many: none where nobody reads.
pub fn print_some(channel: Channel, bytes: &[u8]) -> io::Result<usize>
    ensures { IfOk result (λ n. n ≤ length bytes.now) }
{
    let fd = match channel {
        Channel::Output => 1,
        Channel::Error => 2,
    };
    if !takes_bytes(fd) {
        return Ok(0);
    }
    match usize::try_from(os::write_no_sigpipe(fd, bytes)) {
        Ok(n) => Ok(n.min(bytes.len())),
        Err(_) => Err(io::Error::from(ErrorKind::BrokenPipe)),
    }
}

// Whether it takes bytes at once, or fails at once.
fn takes_bytes(fd: i32) -> bool {
    let mut asked = [pollfd {
        fd,
        events: POLLOUT,
        revents: 0,
    }];
    poll(&mut asked, 0) > 0
}
