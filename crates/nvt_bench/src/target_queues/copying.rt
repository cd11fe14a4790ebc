//! The bare copies that commands are held against.
use crate::target_queues::work::Work;
use std::alloc::{AllocError, Global};

/// Copies as many bytes as a command has so many times, from one buffer to another.
pub fn copies(alloc: Global, work: Work, times: u32) -> Result<(), AllocError> {
    let mut from = vec![in alloc; 0; work.len()]?;
    let mut to = vec![in alloc; 0; work.len()]?;
    copy_each(&mut from, &mut to, times);
    Ok(())
}

// Each time another byte is there to copy, so that no copy can be left out.
fn copy_each(from: &mut [u8], to: &mut [u8], times: u32) {
    for time in 0..times {
        if let Some(byte) = from.first_mut() {
            *byte = (time % 256) as u8;
        }
        if from.len() == to.len() {
            to.copy_from_slice(from);
        }
    }
}
