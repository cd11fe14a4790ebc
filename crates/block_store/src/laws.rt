//! Laws of ranges: a disk is a map from units to their bytes.
ghost use Rattle.std.specs.Prelude.{◌≡◌, ◌⊎◌, ℕ, ◌+◌, ◌*◌, ◌≤◌, List, [], ◌++◌, length, slice_index_or, unwrap_or};
ghost use Rattle.std.specs.List.{All};
ghost use Rattle.block_store.specs.Range.{bytes_of, units_of, units_at, overwritten, FrontWritten, IsWritten};
ghost use Rattle.block_store.specs.Unit.{IsUnit};
ghost use Rattle.block_store.specs.Write.{Write, IsWithin, contents_after, latest};

/// A law: after any writes each unit is what the latest write of it wrote, or as it was before them
/// all; and there are as many units as before.
pub fn latest_write_stands()
    ensures unit { (writes : List Write) (contents : List (List ℕ)) (unit : ℕ)
        → All (IsWithin (length contents)) writes
        → slice_index_or (contents_after writes contents) unit []
        ≡ unwrap_or (latest writes unit) (slice_index_or contents unit []) }
    ensures count { (writes : List Write) (contents : List (List ℕ))
        → All (IsWithin (length contents)) writes
        → length (contents_after writes contents) ≡ length contents }
{}

/// A law: a range that was written is read as it was written, and one beside it as it was before.
pub fn written_range_is_read()
    ensures same { (contents units : List (List ℕ)) (first : ℕ)
        → first + length units ≤ length contents
        → units_at (overwritten contents first units) first (length units) ≡ units }
    ensures other { (contents units : List (List ℕ)) (first other count : ℕ)
        → first + length units ≤ length contents
        → (other + count ≤ first) ⊎ (first + length units ≤ other)
        → units_at (overwritten contents first units) other count ≡ units_at contents other count }
{}

/// A law: of two writes of one range the later one stands; a write of two ranges in a row is one
/// write.
pub fn later_write_stands()
    ensures over { (contents units later : List (List ℕ)) (first : ℕ)
        → first + length units ≤ length contents → length later ≡ length units
        → overwritten (overwritten contents first units) first later
        ≡ overwritten contents first later }
    ensures behind { (contents units more : List (List ℕ)) (first : ℕ)
        → first + length units + length more ≤ length contents
        → overwritten (overwritten contents first units) (first + length units) more
        ≡ overwritten contents first (units ++ more) }
{}

/// A law: after a write that a fault cut short each unit is as before, or is one of the range and has
/// what was written to it; and there are as many units as before.
pub fn torn_write_is_old_or_new()
    ensures unit { (contents units new : List (List ℕ)) (first unit : ℕ)
        → first + length units ≤ length contents → FrontWritten contents first units new
        → (slice_index_or new unit [] ≡ slice_index_or contents unit [])
        ⊎ IsWritten first units new unit }
    ensures count { (contents units new : List (List ℕ)) (first : ℕ)
        → first + length units ≤ length contents → FrontWritten contents first units new
        → length new ≡ length contents }
{}

/// A law: bytes of whole units and the units that they are cut into say the same.
pub fn units_are_their_bytes()
    ensures bytes { (bytes : List ℕ) (count : ℕ) → length bytes ≡ count * 512
        → bytes_of (units_of bytes) ≡ bytes }
    ensures units { (units : List (List ℕ)) → All IsUnit units → units_of (bytes_of units) ≡ units }
    ensures whole { (bytes : List ℕ) (count : ℕ) → length bytes ≡ count * 512
        → All IsUnit (units_of bytes) }
    ensures count { (bytes : List ℕ) (count : ℕ) → length bytes ≡ count * 512
        → length (units_of bytes) ≡ count }
{}
