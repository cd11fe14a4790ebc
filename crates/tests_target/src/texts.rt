//! The texts of errors that no program prints, each by its type, and what a test that fails prints.
use block_store::DiskFault;
use event_queue::LimitExceeded;
use nvt_config::NewFault;
use nvt_fields::NqnFault;
use nvt_replay::ReplayFault;
use property_regs::InvalidField;
use std::alloc::{AllocError, Global};
use std::fmt::Display;
use target_core::{NoConn, StepFault};
use testkit_tables::{
    Failure, Outcome, Placed, check, check_bytes, check_lines, check_number, check_rows,
    check_steps,
};

const DISKS: &str = "more than 256 disks, or a disk of more than 2^40 units";

// Whether this is the fault's text.
fn says<D: Display>(alloc: Global, fault: &D, text: &str) -> bool {
    match fault.to_string(alloc) {
        Ok(said) => said.as_str() == text,
        Err(AllocError) => false,
    }
}

#[test]
fn texts_of_errors(rt: HostRuntime) -> Outcome {
    let alloc = rt.alloc();
    let bad_name = "the name is not `nqn.` and printable bytes after it";
    let limit = "asynchronous event request limit exceeded";
    let rows = [
        says(
            alloc,
            &NqnFault::TooLong,
            "the name has more than 223 bytes",
        ),
        says(alloc, &NqnFault::BadNqn, bad_name),
        says(alloc, &NqnFault::Memory, "memory"),
        says(alloc, &DiskFault, "disk fault"),
        says(alloc, &NewFault::Disks, DISKS),
        says(alloc, &NewFault::Memory, "memory"),
        says(alloc, &InvalidField, "invalid field"),
        says(alloc, &NoConn, "no such connection"),
        says(alloc, &StepFault::NoConn, "no such connection"),
        says(alloc, &StepFault::Memory, "memory"),
        says(alloc, &LimitExceeded, limit),
        says(alloc, &ReplayFault::Disks, "disks"),
    ];
    check_rows(&rows, "the text of this error")
}

// Whether this is what is printed of the failure.
fn prints(alloc: Global, outcome: Outcome, text: &str) -> bool {
    match outcome {
        Ok(()) => false,
        Err(failure) => match format!(in alloc; "{failure:?}") {
            Ok(said) => said.as_str() == text,
            Err(_) => false,
        },
    }
}

#[test]
fn texts_of_failures(rt: HostRuntime) -> Outcome {
    let failed = check(false, "a fact");
    let placed = failed.at_step(4).in_row(3).in_script(0x5EED, 6);
    let of_script = "seed 5eedh, script 6, row 3, step 4, not as wanted: a fact";
    let of_row = check_rows(&[true, false, false], "a fact");
    let of_step = check_steps(&[true, true, false], "a fact").in_row(7);
    let later_line = check_lines(b"a\nbc\nd\n", b"a\nbd\nd\n");
    let alloc = rt.alloc();
    let rows = [
        prints(alloc, failed, "not as wanted: a fact"),
        prints(alloc, placed, of_script),
        prints(alloc, of_row, "row 1, not as wanted: a fact"),
        prints(alloc, of_step, "row 7, step 2, not as wanted: a fact"),
        prints(
            alloc,
            Err(Failure::from(AllocError)),
            "not as wanted: memory",
        ),
        prints(
            alloc,
            check_number(10, 255),
            "wanted 255 (ffh), got 10 (ah)",
        ),
        prints(
            alloc,
            check_bytes(b"abd", b"abc"),
            "byte 2: wanted 63h, got 64h",
        ),
        prints(
            alloc,
            check_bytes(b"ab", b"abc"),
            "byte 2: wanted 63h, got none",
        ),
        prints(
            alloc,
            check_bytes(b"a", b""),
            "byte 0: wanted none, got 61h",
        ),
        prints(alloc, later_line, "row 1, byte 1: wanted 64h, got 63h"),
        prints(
            alloc,
            check_lines(b"abc", b"abd"),
            "row 0, byte 2: wanted 64h, got 63h",
        ),
    ];
    check_rows(&rows, "what is printed")
}
