// Colours of values, and the limits state that samples leave.
use cts_base::Decimal;
use cts_def::{Color, Limits};
use cts_limits::{Change, RunState, fresh, judge, step};
use cts_rows::{Answers, debug_of, number, rows_end_so};
use std::alloc::Global;
use std::test::Fail;

/// A number of tenths.
fn tenths(number: i32) -> Decimal {
    Decimal {
        parts: i128::from(number) * 100_000_000_000,
    }
}

fn color_of(value: Decimal) -> Color {
    let limits = Limits {
        red_low: tenths(-800),
        yellow_low: tenths(-700),
        yellow_high: tenths(600),
        red_high: tenths(800),
        green: None,
    };
    judge(&limits, value)
}

/// A number of tenths, and the colour that it has between -70.0 and 60.0, and -80.0 and 80.0.
const COLORS: &str = "\
-700|YellowLow
600|YellowHigh
800|RedHigh
599|Green";

struct Colors;

impl Answers for Colors {
    fn answer(alloc: Global, asked: &str) -> Result<String, Fail> {
        debug_of(alloc, &color_of(tenths(number(asked, 0)?)))
    }
}

#[test]
fn values_have_colours(rt: HostRuntime) -> Result<(), Fail> {
    rows_end_so::<Colors>(rt.alloc(), COLORS)
}

/// The state after a sample of persistence 3.
fn after(state: RunState, color: Color) -> (RunState, Option<Change>) {
    if state.run == u32::MAX || color as u8 == Color::Stale as u8 {
        return (state, None);
    }
    step(state, 3, color)
}

/// A step for each letter, where `R` is red high and any other is green; then the state, the run that may change it, how many
/// steps changed it, and the change of the last one.
const STEPS: &str = "\
GRRGRR|(RunState { color: Green, run: 2 }, 1, None)
GRRGRRR|(RunState { color: RedHigh, run: 0 }, 2, Some(Change { before: Green, after: RedHigh }))";

struct Steps;

impl Answers for Steps {
    fn answer(alloc: Global, asked: &str) -> Result<String, Fail> {
        debug_of(alloc, &later(asked))
    }
}

fn color_for(letter: u8) -> Color {
    if letter == b'R' {
        Color::RedHigh
    } else {
        Color::Green
    }
}

/// The state after these steps, how many of them changed it, and the change of the last one.
fn later(letters: &str) -> (RunState, u32, Option<Change>) {
    let mut state = fresh();
    let mut changes: u32 = 0;
    let mut last = None;
    for letter in letters.as_bytes() {
        let (next, change) = after(state, color_for(*letter));
        changes = changes.saturating_add(u32::from(change.is_some()));
        state = next;
        last = change;
    }
    (state, changes, last)
}

#[test]
fn the_third_of_a_run_changes_the_state(rt: HostRuntime) -> Result<(), Fail> {
    rows_end_so::<Steps>(rt.alloc(), STEPS)
}
