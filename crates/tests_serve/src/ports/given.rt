//! What ports in memory take.
use nvt_ports::{MemoryPorts, PortFault, Ports, SLOTS};
use testkit_tables::{Outcome, check, check_bytes, pass};

#[test]
fn what_is_given_is_kept_in_its_slot(rt: HostRuntime) -> Outcome {
    let mut ports = MemoryPorts::new(rt.alloc(), Vec::new(rt.alloc()))?;
    pass!(check(ports.give(2, b"one") == Ok(3), "all of it is taken"));
    pass!(check(ports.give(63, b"other") == Ok(5), "all of it is taken"));
    pass!(check(ports.give(2, b" more") == Ok(5), "all of it is taken"));
    pass!(check_bytes(ports.got(2), b"one more"));
    pass!(check_bytes(ports.got(63), b"other"));
    check_bytes(ports.got(SLOTS), b"")
}

#[test]
fn one_call_fails(rt: HostRuntime) -> Outcome {
    let mut ports = MemoryPorts::new(rt.alloc(), Vec::new(rt.alloc()))?;
    ports.fail_give(2);
    pass!(check(ports.give(0, b"a") == Ok(1), "the first call"));
    pass!(check(ports.give(0, b"b") == Err(PortFault), "the second call"));
    pass!(check(ports.give(0, b"c") == Ok(1), "the third call"));
    pass!(check_bytes(ports.got(0), b"ac"));
    ports.fail_give(0);
    check(
        ports.give(0, b"d") == Ok(1),
        "a call that nothing makes fail",
    )
}
