// A clock that stands still, and a gate at which nobody waits.
use cts_outside::{Clock, FixedClock, Gate, GateStage, OpenGate};
use std::sync::Wait;
use std::test::Fail;

fn time_of<K: Clock>(clock: &K) -> (u32, u32) {
    clock.now()
}

fn pass_all<R: Wait, G: Gate>(rt: &R, gate: &G) {
    gate.pass(rt, 0, GateStage::Started);
    gate.pass(rt, 1, GateStage::Took);
    gate.pass(rt, 2, GateStage::Posted);
    gate.pass(rt, 3, GateStage::Answered);
}

#[test]
fn a_fixed_clock_gives_its_time_again_and_an_open_gate_holds_nobody(
    rt: HostRuntime,
) -> Result<(), Fail> {
    let clock = FixedClock::new(1_700_000_000, 999_999);
    pass_all(&rt, &OpenGate::new());
    assert_eq!(rt; time_of(&clock), (1_700_000_000, 999_999));
    assert_eq!(rt; time_of(&clock), (1_700_000_000, 999_999));
    Ok(())
}
