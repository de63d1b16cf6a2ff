// The columns that are asked for.
ghost use Rattle.std.specs.Prelude.{◌≡◌};

use cts_conv::ValueKind;
use std::marker::Model;

/// Which columns of a log are asked for, in the words of the command line: a packet by its names, which values of its items, and the
/// items with commas between them.
#[derive(Drop)]
pub struct Wanted<'a> {
    target: &'a str,
    packet: &'a str,
    kind: ValueKind,
    items: &'a str,
}

impl<'a> Model for Wanted<'a> {
    ghost use Rattle.cts_run.specs.Wanted.{WantedData};

    ghost Value = { WantedData };

    ghost view = { λ w. record { target = w.target.now; packet = w.packet.now; kind = w.kind; items = w.items.now } };
}

impl<'a> Wanted<'a> {
    /// These words.
    pub fn of(target: &'a str, packet: &'a str, kind: ValueKind, items: &'a str) -> Wanted<'a>
        ensures { result ≡ record { target = target.now; packet = packet.now; kind = kind; items = items.now } }
    {
        Wanted {
            target,
            packet,
            kind,
            items,
        }
    }

    /// The target.
    pub fn target(&self) -> &'a [u8]
        ensures { result.now ≡ self.now.target }
    {
        self.target.as_bytes()
    }

    /// The packet, or the command.
    pub fn packet(&self) -> &'a [u8]
        ensures { result.now ≡ self.now.packet }
    {
        self.packet.as_bytes()
    }

    /// Which values are shown.
    pub fn kind(&self) -> ValueKind
        ensures { result ≡ self.now.kind }
    {
        self.kind
    }

    /// The items, with commas between them.
    pub fn items(&self) -> &'a [u8]
        ensures { result.now ≡ self.now.items }
    {
        self.items.as_bytes()
    }
}
