//! Checks, and the places that they are made at.
ghost use Rattle.std.specs.Prelude.{◌≡◌, ◌↔◌, IsOk, IsTrue};

use crate::failure::{Failure, Outcome, What};

/// Whether this fact holds, which the words say.
pub fn check(holds: bool, fact: &'static str) -> Outcome
    ensures { IsOk result ↔ IsTrue holds }
{
    if holds {
        Ok(())
    } else {
        Err(Failure::of(What::Fact(fact)))
    }
}

/// Whether this fact holds in each row.
pub fn check_rows(rows: &[bool], fact: &'static str) -> Outcome {
    match rows.iter().position(|holds| !*holds) {
        None => Ok(()),
        Some(row) => Err(Failure {
            row: Some(row),
            ..Failure::of(What::Fact(fact))
        }),
    }
}

/// Whether this fact holds at each step.
pub fn check_steps(steps: &[bool], fact: &'static str) -> Outcome {
    match steps.iter().position(|holds| !*holds) {
        None => Ok(()),
        Some(step) => Err(Failure {
            step: Some(step),
            ..Failure::of(What::Fact(fact))
        }),
    }
}

/// Whether a number is the one that is wanted.
pub fn check_number(got: u64, wanted: u64) -> Outcome {
    if got == wanted {
        Ok(())
    } else {
        Err(Failure::of(What::Number { wanted, got }))
    }
}

/// Whether bytes are those that are wanted; a failure names the first that is not.
pub fn check_bytes(got: &[u8], wanted: &[u8]) -> Outcome
    ensures { IsOk result ↔ got.now ≡ wanted.now }
{
    if got == wanted {
        Ok(())
    } else {
        Err(Failure::of(first_difference(got, wanted)))
    }
}

// How many bytes are the same.
fn alike(got: &[u8], wanted: &[u8]) -> usize {
    let alike = got.iter().zip(wanted).take_while(|pair| pair.0 == pair.1);
    alike.count()
}

// Where the one ends, it has no byte.
fn first_difference(got: &[u8], wanted: &[u8]) -> What {
    let place = alike(got, wanted);
    What::Byte {
        place,
        wanted: wanted.get(place).copied(),
        got: got.get(place).copied(),
    }
}

/// Whether lines are those that are wanted; the row of a failure is the first line that is not, and its
/// byte one of that line.
pub fn check_lines(got: &[u8], wanted: &[u8]) -> Outcome {
    if got == wanted {
        return Ok(());
    }
    let same = wanted.get(..alike(got, wanted)).unwrap_or(wanted);
    let row = same.iter().filter(|byte| **byte == b'\n').count();
    let start = match same.iter().rposition(|byte| *byte == b'\n') {
        Some(end) => end.saturating_add(1),
        None => 0,
    };
    Err(Failure {
        row: Some(row),
        ..Failure::of(first_difference(behind(got, start), behind(wanted, start)))
    })
}

fn behind(bytes: &[u8], start: usize) -> &[u8] {
    bytes.get(start..).unwrap_or(&[])
}

/// What has a place in a test's table or script.
pub trait Placed {
    /// In this row.
    fn in_row(self, row: usize) -> Self;

    /// At this step.
    fn at_step(self, step: usize) -> Self;

    /// In the random script of this number, whose numbers come from this seed.
    fn in_script(self, seed: u64, number: u64) -> Self;
}

impl Placed for Outcome {
    fn in_row(self, row: usize) -> Outcome {
        let row = Some(row);
        self.map_err(|failure| Failure { row, ..failure })
    }

    fn at_step(self, step: usize) -> Outcome {
        let step = Some(step);
        self.map_err(|failure| Failure { step, ..failure })
    }

    fn in_script(self, seed: u64, number: u64) -> Outcome {
        let script = Some((seed, number));
        self.map_err(|failure| Failure { script, ..failure })
    }
}
