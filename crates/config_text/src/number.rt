//! Numbers in the lines of edits and of scripts.
ghost use Rattle.std.specs.Prelude.{◌≡◌, ◌^◌, ◌<◌, ◌≤◌, ℕ, IfNone, IfSome, is_some};
ghost use Rattle.std.specs.Str.Parse.{AllDigits, digits_value};
ghost use Rattle.config_text.specs.Number.{IsNumber, has_leading_zero, is_number};

/// The number that the word spells: decimal, without leading zeros, up to 2^64 - 1.
pub fn read_number(word: &[u8]) -> Option<u64>
    ensures variant { is_some result ≡ is_number word.now }
    ensures some { IfSome result (IsNumber word.now) }
    ensures none { IfNone result ((n : ℕ) → ¬ IsNumber word.now n) }
{
    if word.is_empty() || has_leading_zero(word) {
        return None;
    }
    digits_value(word)
}

fn has_leading_zero(word: &[u8]) -> bool
    ensures { result ≡ has_leading_zero word.now }
{
    word.len() > 1 && word[0] == b'0'
}

// The number of some digits, where it is below 2^64.
fn digits_value(word: &[u8]) -> Option<u64>
    ensures some { IfSome result (λ n. AllDigits 10 word.now × (n ≡ digits_value 10 word.now)) }
    ensures fits { IfSome result (λ n. n < 2 ^ 64) }
    ensures none { IfNone result (AllDigits 10 word.now → 2 ^ 64 ≤ digits_value 10 word.now) }
{
    let mut n = 0u64;
    for b in word {
        if !b.is_ascii_digit() {
            return None;
        }
        n = n.checked_mul(10)?.checked_add(u64::from(*b - b'0'))?;
    }
    Some(n)
}
