//! The time that something takes.
use crate::fault::BenchFault;
use std::rt::Clock;
use std::time::Instant;

/// The time at which it is asked.
pub fn now(clock: &impl Clock) -> Result<Instant, BenchFault> {
    match Instant::now(clock) {
        Ok(now) => Ok(now),
        Err(_) => Err(BenchFault::Io),
    }
}

/// The microseconds from then to now, at least one.
pub fn micros_since(clock: &impl Clock, begun: Instant) -> Result<u64, BenchFault> {
    let elapsed = now(clock)?.duration_since(begun);
    Ok(
        u64::try_from(elapsed.as_micros())
            .unwrap_or(u64::MAX)
            .max(1),
    )
}

/// The nanoseconds from then to now.
pub fn nanos_since(clock: &impl Clock, begun: Instant) -> Result<u64, BenchFault> {
    let elapsed = now(clock)?.duration_since(begun);
    Ok(u64::try_from(elapsed.as_nanos()).unwrap_or(u64::MAX))
}

/// How many a second are as many in so many microseconds.
pub fn rate(count: u64, micros: u64) -> u64 {
    count.saturating_mul(1_000_000) / micros.max(1)
}
