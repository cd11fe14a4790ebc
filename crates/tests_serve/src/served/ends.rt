//! A connection that ended before its target is served.
use testkit_tables::{Outcome, check, pass};
use testkit_targets::serving::{Rig, Scenario, Step, holds_over};

struct EndedBefore;

impl Scenario for EndedBefore {
    fn holds(&self, rig: &mut Rig) -> Outcome {
        pass!(check(rig.opens(0), "one is opened before"));
        pass!(check(rig.receives(0, &[0xFF; 8]), "a header of no type"));
        rig.serve(1);
        pass!(check(rig.is_ended(0), "it has ended"));
        pass!(check(rig.empties(0), "it has something to send, and no slot"));
        rig.serve(1);
        check(rig.opens(0), "its number is free")
    }
}

#[test]
fn a_connection_that_ended_before_is_given_up(rt: HostRuntime) -> Outcome {
    holds_over(rt.alloc(), &[Step::Open { slot: 0, port: 1 }], &EndedBefore)
}
