//! The edits that come first.
use nvt_config::Access;
use testkit_edits::{A, H0, H1, H2, Line};

/// A closed subsystem, three ports that it is linked to, and three hosts that it allows.
pub const FIRST: &[Line<'static>] = &[
    Line::SubsystemAdd(A, b"SN-A", Access::Closed),
    Line::PortAdd(1, b"127.0.0.1", 4420),
    Line::PortAdd(2, b"127.0.0.1", 4420),
    Line::PortAdd(3, b"127.0.0.1", 4420),
    Line::LinkAdd(1, A),
    Line::LinkAdd(2, A),
    Line::LinkAdd(3, A),
    Line::HostAdd(H0),
    Line::HostAdd(H1),
    Line::HostAdd(H2),
    Line::AllowAdd(A, H0),
    Line::AllowAdd(A, H1),
    Line::AllowAdd(A, H2),
];
