//! Numbers, drawn at random.
use rand_core::utils::NextWord;
use rand_pcg::Pcg32;

/// A number below a bound, which is not 0.
pub fn below(random: &mut Pcg32, bound: u32) -> u32 {
    random.next_word() % bound.max(1)
}

/// True once in `n` times.
pub fn rarely(random: &mut Pcg32, n: u32) -> bool {
    below(random, n) == 0
}

/// A number from 1 to this one: as often of few digits as of many.
pub fn up_to(random: &mut Pcg32, most: u32) -> usize {
    let digits = below(random, 20);
    let bound = 2u32.wrapping_shl(digits).clamp(1, most.max(1));
    (below(random, bound) as usize).saturating_add(1)
}
