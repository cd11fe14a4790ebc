//! The texts of faults that no program prints.
use host_driver::HostFault;
use host_pages::BadPage;
use testkit_tables::{Outcome, Placed, check_bytes, pass};

#[test]
fn faults_of_queues_are_told(rt: HostRuntime) -> Outcome {
    let rows = [
        (HostFault::Failed, "failed"),
        (HostFault::NotConnected, "not connected"),
        (HostFault::QueueFull, "queue full"),
        (HostFault::Memory, "memory"),
    ];
    for (row, (fault, text)) in rows.iter().enumerate() {
        let printed = format!(in rt.alloc(); "{fault}")?;
        pass!(check_bytes(printed.as_bytes(), text.as_bytes()).in_row(row));
    }
    Ok(())
}

#[test]
fn faults_of_pages_are_told(rt: HostRuntime) -> Outcome {
    let rows = [
        (BadPage::TooShort, "the page is shorter than what it counts"),
        (
            BadPage::OtherFormat,
            "the records have another format than 0",
        ),
        (
            BadPage::TooManyRecords,
            "the page has more than 1024 records",
        ),
        (
            BadPage::OtherLength,
            "the answer has another length than was asked for",
        ),
    ];
    for (row, (fault, text)) in rows.iter().enumerate() {
        let printed = format!(in rt.alloc(); "{fault}")?;
        pass!(check_bytes(printed.as_bytes(), text.as_bytes()).in_row(row));
    }
    Ok(())
}
