//! Numbers and bytes, drawn at random.
use rand_core::utils::NextWord;
use rand_pcg::Pcg32;
use std::alloc::AllocError;

/// A number below a bound, which is not 0.
pub fn below(random: &mut Pcg32, bound: u32) -> u32 {
    random.next_word() % bound.max(1)
}

/// True once in `n` times.
pub fn rarely(random: &mut Pcg32, n: u32) -> bool {
    below(random, n) == 0
}

/// One of these numbers.
pub fn one_of(random: &mut Pcg32, first: usize, more: u32) -> usize {
    (below(random, more) as usize).saturating_add(first)
}

/// So many bytes, of which neighbours differ.
pub fn bytes(out: &mut Vec<u8>, random: &mut Pcg32, len: usize) -> Result<(), AllocError> {
    let mut word = random.next_word();
    for _ in 0..len {
        word = word.wrapping_mul(1_664_525).wrapping_add(1_013_904_223);
        out.push(word.to_le_bytes()[3])?;
    }
    Ok(())
}

/// The I/O queue of a controller that is not the first one.
pub fn io_queue(random: &mut Pcg32) -> usize {
    let controller = one_of(random, 1, 3) % 4;
    controller * 3 + 1 + usize::from(rarely(random, 2))
}
