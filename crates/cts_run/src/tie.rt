// What a hub ties, in the words of the command line.
ghost use Rattle.std.specs.Prelude.{◌≡◌};

use std::marker::Model;

/// A slot of the site above, an interface of the site below, and how many bytes a piece has, each as a word of the command line.
#[derive(Drop)]
pub struct Tie<'a> {
    who: &'a str,
    name: &'a str,
    cut: &'a str,
}

impl<'a> Model for Tie<'a> {
    ghost use Rattle.cts_run.specs.Tie.{TieData};

    ghost Value = { TieData };

    ghost view = { λ t. record { who = t.who.now; name = t.name.now; cut = t.cut.now } };
}

impl<'a> Tie<'a> {
    /// These words.
    pub fn of(who: &'a str, name: &'a str, cut: &'a str) -> Tie<'a>
        ensures { result ≡ record { who = who.now; name = name.now; cut = cut.now } }
    {
        Tie { who, name, cut }
    }

    /// The slot.
    pub fn who(&self) -> &'a [u8]
        ensures { result.now ≡ self.now.who }
    {
        self.who.as_bytes()
    }

    /// The interface.
    pub fn name(&self) -> &'a [u8]
        ensures { result.now ≡ self.now.name }
    {
        self.name.as_bytes()
    }

    /// The size of a piece.
    pub fn cut(&self) -> &'a [u8]
        ensures { result.now ≡ self.now.cut }
    {
        self.cut.as_bytes()
    }
}
