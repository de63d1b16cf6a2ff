// The limits state that samples leave.
ghost use Rattle.std.specs.Prelude.{◌≡◌, ◌≢◌, ◌<◌, ◌≤◌, ◌-◌, ◌^◌, ◌++◌, ◌∷◌, [], List};
ghost use Rattle.cts_limits.specs.States.{StandsFor, Sample, change_at, change_from, same_color, step_of};
ghost use Rattle.cts_def.specs.declared.color.Color.TheVariants.{Stale};

use cts_def::Color;

/// What is kept of an item's samples: the limits state that they leave, and how many of the newest differ from it.
#[derive(Clone, Copy, Debug, PartialEq, Eq)]
pub struct RunState {
    /// The limits state.
    pub color: Color,
    /// How many of the newest samples in a row have another colour.
    pub run: u32,
}

/// A change of a limits state.
#[derive(Clone, Copy, Debug, PartialEq, Eq)]
pub struct Change {
    /// The state before the sample.
    pub before: Color,
    /// The state after it.
    pub after: Color,
}

/// What is kept after one more sample of this colour, taken with this persistence, and the change of the limits state where the
/// sample makes one. The first sample changes `Stale` to its colour. After it, as in the documentation of COSMOS 4, the state
/// changes at the sample with which so many in a row differ from it, to that sample's colour; one that is equal to it starts
/// the count again.
pub fn step(state: RunState, persistence: u32, color: Color) -> (RunState, Option<Change>)
    requires persistence { 1 ≤ persistence }
    requires color { color ≢ Stale }
    requires run { state.run < 2 ^ 32 - 1 }
    ensures value { result.0 ≡ step_of state (record { persistence = persistence; color = color }) }
    ensures told { result.1 ≡ change_from state.color result.0.color }
    ensures state { (s : List Sample) → StandsFor state s → StandsFor result.0 (s ++ record { persistence = persistence; color = color } ∷ []) }
    ensures change { (s : List Sample) → StandsFor state s → result.1 ≡ change_at s (record { persistence = persistence; color = color }) }
{
    let same = is_same(state.color, color);
    let first = is_same(state.color, Color::Stale);
    let change = Change {
        before: state.color,
        after: color,
    };
    if same {
        let next = RunState {
            color: state.color,
            run: 0,
        };
        (next, None)
    } else if first {
        (RunState { color, run: 0 }, Some(change))
    } else if state.run + 1 >= persistence {
        (RunState { color, run: 0 }, Some(change))
    } else {
        let next = RunState {
            color: state.color,
            run: state.run + 1,
        };
        (next, None)
    }
}

fn is_same(color: Color, other: Color) -> bool
    ensures { result ≡ same_color color other }
{
    color as u8 == other as u8
}

/// What is kept of no samples: the limits state is `Stale`.
pub fn fresh() -> RunState
    ensures none { StandsFor result [] }
    ensures value { result ≡ record { color = Stale; run = 0 } }
{
    RunState {
        color: Color::Stale,
        run: 0,
    }
}
