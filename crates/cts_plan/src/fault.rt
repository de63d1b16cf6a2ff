//! Why a site file is refused.

ghost use Rattle.std.specs.Prelude.{◌≡◌};

use cts_reader::Fault;
use std::fmt;

/// Why a statement of a site file is refused, in the order in which the causes are tried. Its text is the variant's name.
#[derive(Clone, Copy, Debug, PartialEq, Eq)]
pub enum SiteCause {
    /// The first word is no keyword.
    UnknownKeyword,
    /// The line needs an interface or router before it, or one of the two kinds.
    OutsideInterface,
    /// Too few or too many words, or a fixed word that is none of its choices.
    WrongCount,
    /// The file name is not in the table, or no interface has the name that ROUTE gives.
    UnknownInterface,
    /// A name is not 1 to 255 letters, digits and underscores.
    BadName,
    /// A number or pattern has another form or is out of its bounds.
    NotNumber,
    /// An interface, router or route stands already, or the layout or the cycle of logs is given already.
    DoubleName,
    /// The ports differ, or one is `nil`.
    TwoPorts,
    /// No definition has the target.
    UnknownTarget,
    /// An interface has the target already.
    TargetTwice,
    /// The protocol is none of the five.
    ProtocolKind,
    /// A sync `0x`, or a read termination of no bytes.
    EmptySync,
    /// More than four protocols, with the BURST that is added where none reads.
    ChainTooLong,
    /// A protocol reads after a FIXED or PREIDENTIFIED that reads.
    NotLast,
    /// FIXED cannot tell its packets by its MinIdSize bytes, or its sync pattern is longer than what it discards and those.
    MinIdSize,
    /// FIXED has a packet whose length is not fixed.
    VariableLength,
    /// More than 16 interfaces or 4 routers.
    TooMany,
}

impl SiteCause {
    ghost use Rattle.cts_plan.specs.Causes.{name_of_cause};

    /// The variant's name.
    pub fn name(self) -> &'static str
        ensures { result.now ≡ name_of_cause self }
    {
        match self {
            SiteCause::UnknownKeyword => "UnknownKeyword",
            SiteCause::OutsideInterface => "OutsideInterface",
            SiteCause::WrongCount => "WrongCount",
            SiteCause::UnknownInterface => "UnknownInterface",
            SiteCause::BadName => "BadName",
            SiteCause::NotNumber => "NotNumber",
            SiteCause::DoubleName => "DoubleName",
            SiteCause::TwoPorts => "TwoPorts",
            SiteCause::UnknownTarget => "UnknownTarget",
            SiteCause::TargetTwice => "TargetTwice",
            SiteCause::ProtocolKind => "ProtocolKind",
            SiteCause::EmptySync => "EmptySync",
            SiteCause::ChainTooLong => "ChainTooLong",
            SiteCause::NotLast => "NotLast",
            SiteCause::MinIdSize => "MinIdSize",
            SiteCause::VariableLength => "VariableLength",
            SiteCause::TooMany => "TooMany",
        }
    }
}

impl fmt::Display for SiteCause {
    fn fmt<W: fmt::Write>(&self, f: &mut fmt::Formatter<W>) -> fmt::Result {
        f.write_str(self.name())
    }
}

/// Why there is no site.
pub type SiteFault = Fault<SiteCause>;
