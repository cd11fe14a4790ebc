//! Blocks of a namespace.
ghost use Rattle.std.specs.Prelude.{◌≡◌, ◌≤◌, ◌↔◌, IfSome, IsSome};

/// Some blocks of a namespace: at least one, and at most 256.
#[derive(Clone, Copy, Debug, PartialEq, Eq)]
pub struct Blocks {
    pub nsid: u32,
    /// The first one.
    pub lba: u64,
    /// How many.
    pub count: u16,
    ghost counted: { (1 ≤ count) × (count ≤ 256) },
}

impl Blocks {
    /// These blocks, where there may be so many.
    pub fn new(nsid: u32, lba: u64, count: u16) -> Option<Blocks>
        ensures counted { IsSome result ↔ (1 ≤ count) × (count ≤ 256) }
        ensures nsid { IfSome result (λ blocks. blocks.nsid ≡ nsid) }
        ensures lba { IfSome result (λ blocks. blocks.lba ≡ lba) }
        ensures count { IfSome result (λ blocks. blocks.count ≡ count) }
    {
        if count >= 1 && count <= 256 {
            Some(Blocks { nsid, lba, count })
        } else {
            None
        }
    }
}
