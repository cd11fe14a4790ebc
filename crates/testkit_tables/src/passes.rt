//! How a test ends at its first failure.

/// Goes on where this `Outcome` is `Ok`, and else returns it. A `?` would say the same, at three times the
/// cost of proof.
#[macro_export]
macro_rules! pass {
    ($outcome:expr) => {{
        let outcome = $outcome;
        if outcome.is_err() {
            return outcome;
        }
    }};
}
