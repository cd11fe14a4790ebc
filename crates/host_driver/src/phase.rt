//! How far a host's queue has come.

/// What the controller's ICResp set for what the host sends (TCP Transport 1.0, section 3.6.2.3).
#[derive(Clone, Copy, Debug, PartialEq, Eq)]
pub struct TransportLimits {
    /// Controller PDU data alignment, in units of 4 bytes, 0's based: 0 to 31.
    pub cpda: u8,
    /// The most data bytes in one H2CData: at least 4,096, a multiple of 4.
    pub maxh2cdata: u32,
}

/// How far a queue has come.
#[derive(Clone, Copy, Debug, PartialEq, Eq)]
pub enum Phase {
    /// The ICReq is sent: the controller owes an ICResp.
    Opened,
    /// The Connect is sent, as command 0: the controller owes its reply.
    Initialized(TransportLimits),
    /// The Connect succeeded: commands may be submitted.
    Connected(TransportLimits),
    /// A fault, a termination or a refused Connect: nothing follows.
    Failed,
}
