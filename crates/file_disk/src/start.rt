//! What is supposed of files as they are opened.
ghost use Rattle.std.specs.Prelude.{ℕ};

/// What each file held as it was opened. A function over `S: Start` is proved whatever the files held,
/// which no code can read.
pub trait Start: Drop {
    /// The byte at an offset of the file of a number.
    ghost held: { ℕ → ℕ → ℕ };
}

/// For `main` to name. At this type itself a clause on what a file has says nothing of one that held
/// other bytes than zeros; what is proved over any `S: Start` holds whatever files held, since the bound
/// asks nothing of it (`any_held` in proofs/AnyStart.antt).
#[derive(Drop)]
pub struct Unknown;

impl Start for Unknown {
    ghost held = { λ _ _. 0 };
}
