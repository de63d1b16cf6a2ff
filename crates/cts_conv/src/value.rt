// What an item's value may be, and which of its values is asked for.

use cts_base::{Bytes, Decimal};

/// A value of an item. Its text is UTF-8 whatever it is of, so that how it is shown hangs on the value alone.
#[derive(Debug, Drop)]
pub enum Value {
    /// A whole number.
    Whole(i128),
    /// A decimal, as a conversion gives it.
    Parts(Decimal),
    /// A text in UTF-8: the characters of a STRING, or the name of a state.
    Text(Bytes),
    /// The bytes of a BLOCK.
    Raw(Bytes),
}

/// Which of its values is asked for of an item, by the documentation of COSMOS 4.
#[derive(Clone, Copy, Debug, PartialEq, Eq)]
pub enum ValueKind {
    /// What its bits say.
    Raw,
    /// What its conversion and states make of that.
    Converted,
    /// The text of the converted value by its format.
    Formatted,
    /// That text with the abbreviated units.
    WithUnits,
}
