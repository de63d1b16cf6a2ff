// The system's clock.
use crate::clock::{SystemClock, time_of};
use cts_outside::Clock;
use std::test::Fail;
use std::time::{Duration, SystemTime, UNIX_EPOCH};

#[test]
fn the_clock_is_that_of_the_system(rt: HostRuntime) -> Result<(), Fail> {
    let before = SystemTime::now(&rt)?.duration_since(UNIX_EPOCH)?;
    let now = SystemClock::new(&rt).now();
    let after = SystemTime::now(&rt)?.duration_since(UNIX_EPOCH)?;
    assert!(rt; time_of(before) <= now, "it does not go back");
    assert!(rt; now <= time_of(after), "it is no later than the system's");
    Ok(())
}

#[test]
fn a_time_past_the_last_second_of_32_bits_is_that_second(rt: HostRuntime) {
    for (since, time) in [
        (Duration::new(1, 999_999_999), (1, 999_999)),
        (Duration::new(4_294_967_295, 1_000), (4_294_967_295, 1)),
        (Duration::new(4_294_967_296, 5_000), (4_294_967_295, 5)),
    ] {
        assert_eq!(rt; time_of(since), time);
    }
}
