// What is asked for: a command and what is given for its parameters.

use cts_base::{Bytes, List};

/// What is given for a parameter, before it is known what the parameter is.
#[derive(Debug, Drop)]
pub enum Given {
    /// A whole number.
    Whole(i128),
    /// A text: the name of a state, or the characters of a STRING or BLOCK, or the bytes of a BLOCK after `0x`.
    Text(Bytes),
}

/// A command by its names, with what is given for its parameters in the order in which it is given.
#[derive(Debug, Drop)]
pub struct Request {
    /// The target, in any case.
    pub target: Bytes,
    /// The command, in any case.
    pub command: Bytes,
    /// The names of parameters, in any case, with what is given for each.
    pub params: List<(Bytes, Given)>,
}

/// Which checks are made of a command that may be left out.
#[derive(Clone, Copy, Debug, PartialEq, Eq)]
pub struct Checks {
    /// Whether given numbers have to be within their ranges.
    pub range: bool,
    /// Whether hazardous commands are refused.
    pub hazardous: bool,
}
