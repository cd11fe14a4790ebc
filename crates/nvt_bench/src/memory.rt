//! The memory that the program has.
use crate::fault::BenchFault;
use crate::files::read_file;
use std::rt::Files;

// Of a page of memory.
const PAGE_KIB: u64 = 4;

/// Prints how much memory the program has, as the system says it.
pub fn report_memory<R: Files + Print + AllocGlobal>(rt: &R) -> Result<(), BenchFault> {
    let kib = resident_pages(rt)?.saturating_mul(PAGE_KIB);
    match rt.print(format_args!("resident memory: {kib} KiB\n")) {
        Ok(()) => Ok(()),
        Err(_) => Err(BenchFault::Io),
    }
}

fn resident_pages<R: Files + AllocGlobal>(rt: &R) -> Result<u64, BenchFault> {
    let text = read_file(rt, rt.alloc(), "/proc/self/statm")?;
    Ok(second_number(&text))
}

// The second of some decimal numbers, with a space between one and the next.
fn second_number(text: &[u8]) -> u64 {
    let mut spaces: u32 = 0;
    let mut number: u64 = 0;
    for byte in text {
        if *byte == b' ' {
            spaces = spaces.saturating_add(1);
        } else if spaces == 1 && byte.is_ascii_digit() {
            let digit = u64::from(byte.wrapping_sub(b'0'));
            number = number.saturating_mul(10).saturating_add(digit);
        }
    }
    number
}
