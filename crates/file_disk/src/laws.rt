//! Laws of writes: what the calls of a record leave is what they wrote.
ghost use Rattle.std.specs.Prelude.{◌≡◌, ℕ, ◌+◌, ◌*◌, ◌%◌, ◌≤◌, List, ◌++◌, length};
ghost use Rattle.std.specs.List.{All};
ghost use Rattle.block_store.specs.Range.{bytes_of, overwritten};
ghost use Rattle.block_store.specs.Unit.{IsUnit};
ghost use Rattle.file_disk.specs.Replay.{Replayed, after_write};

/// A law: a write of whole units leaves these units in the place of those that were there.
#[tactic(auto, using(crate::proofs::Joined::whole_written))]
pub fn whole_write_leaves_its_units()
    ensures { (was : Replayed) (first : ℕ) (units : List (List ℕ)) → All IsUnit units
        → (after_write (first * 512) (bytes_of units) was).contents ≡ overwritten was.contents first units }
{}

/// A law: a write that was cut short, and the write that went on with it at the next byte, leave what
/// one write leaves.
#[tactic(auto, using(crate::proofs::Joined::cut_contents, crate::proofs::Joined::cut_begun))]
pub fn cut_writes_are_one()
    ensures contents { (was : Replayed) (offset : ℕ) (front back : List ℕ)
        → offset % 512 ≡ 0 → offset + length front + length back ≤ length was.contents * 512
        → (after_write (offset + length front) back (after_write offset front was)).contents
        ≡ (after_write offset (front ++ back) was).contents }
    ensures begun { (was : Replayed) (offset : ℕ) (front back : List ℕ) → offset % 512 ≡ 0
        → (after_write (offset + length front) back (after_write offset front was)).begun
        ≡ (after_write offset (front ++ back) was).begun }
{}
