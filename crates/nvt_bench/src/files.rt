//! What stands in a file.
use crate::fault::BenchFault;
use std::alloc::Global;
use std::fs::File;
use std::io::Read;
use std::rt::Files;

/// Reads a file whole.
pub fn read_file<R: Files>(rt: &R, alloc: Global, path: &str) -> Result<Vec<u8>, BenchFault> {
    let mut bytes = Vec::new(alloc);
    let Ok(mut file) = File::open(rt, path) else {
        return Err(BenchFault::Io);
    };
    match file.read_to_end(&mut bytes) {
        Ok(_) => Ok(bytes),
        Err(_) => Err(BenchFault::Io),
    }
}
