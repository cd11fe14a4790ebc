//! What the arguments of `replay` ask for.

/// What the arguments of `replay` ask for.
#[derive(Drop)]
pub struct ReplayArguments {
    /// The path of the file of edits.
    pub edits: String,
    /// The path of the script of connections.
    pub stream: String,
    /// The size of each disk in memory, in units of 512 bytes.
    pub disks: Vec<u64>,
    /// Whether words are printed behind each PDU.
    pub explain: bool,
}
