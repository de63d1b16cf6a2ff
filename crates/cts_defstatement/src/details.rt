// What a statement says of the last item.

use cts_base::{Bytes, Decimal, List, Name};
use cts_def::{Limits, Overflow, Segment, StateDef};

/// The limits of an item in one limits set.
#[derive(Debug, Drop)]
pub struct LimitsLine {
    /// The limits set.
    pub set: Name,
    /// How many samples in a row change the limits state.
    pub persistence: u32,
    /// Whether samples are taken from the start.
    pub enabled: bool,
    /// The limits.
    pub limits: Limits,
}

/// A statement that belongs to the last item.
#[derive(Debug, Drop)]
pub enum Detail {
    /// A named value.
    State(StateDef),
    /// Limits in a limits set.
    Limits(LimitsLine),
    /// A polynomial: its coefficients from the power 0 on.
    Poly(List<Decimal>),
    /// A segment of a conversion.
    Segment(Segment),
    /// Units, in full and abbreviated.
    Units(Bytes, Bytes),
    /// A format.
    Format(Bytes),
    /// What a command does with a value that has no spelling.
    Overflow(Overflow),
    /// A command has to give the parameter.
    Required,
}
