//! Peers that are gone are told from those that are silent.

use libc::net as c;
use mio::net::TcpStream;
use std::os::fd::AsRawFd;

// A peer that was silent for so long is asked whether it is there, so often, and is given up where it does not answer.
const IDLE_SECONDS: i32 = 30;

const INTERVAL_SECONDS: i32 = 10;

const TRIES: i32 = 3;

/// Has the system ask a peer that is silent for 30 seconds whether it is there: every 10 seconds, three times. Where it is
/// not, reads and writes fail from then on. A system that cannot be told so is not asked twice.
pub fn keep_alive(stream: &TcpStream) {
    let fd = stream.as_raw_fd();
    // Each call names its option, so that the check can tell that the contract takes it.
    unsafe {
        c::setsockopt(fd, c::SOL_SOCKET, c::SO_KEEPALIVE, &value(1), 4);
        c::setsockopt(fd, c::IPPROTO_TCP, c::TCP_KEEPIDLE, &value(IDLE_SECONDS), 4);
        c::setsockopt(
            fd,
            c::IPPROTO_TCP,
            c::TCP_KEEPINTVL,
            &value(INTERVAL_SECONDS),
            4,
        );
        c::setsockopt(fd, c::IPPROTO_TCP, c::TCP_KEEPCNT, &value(TRIES), 4);
    }
}

// An `int` in the first 4 bytes.
fn value(number: i32) -> [u8; 16] {
    let mut value = [0u8; 16];
    value[..4].copy_from_slice(&number.to_ne_bytes());
    value
}
