// Why a line of a file is refused.
ghost use Rattle.std.specs.Prelude.{◌≡◌};

use cts_defstatement::DefCause;
use cts_plan::SiteCause;
use cts_scriptread::ScriptCause;

/// Why a line of a file is refused.
#[derive(Clone, Copy)]
pub enum Cause {
    /// The file holds more bytes than are taken.
    TooLarge,
    /// A quoted word does not end on the line.
    OpenQuote,
    /// The line is joined to no line.
    DanglingJoin,
    /// The file is no text.
    NotText,
    /// The words of a script can't be read.
    WrongCount,
    /// A statement of the definitions is refused.
    Definition(DefCause),
    /// A statement of the site is refused.
    Site(SiteCause),
    /// A line of a script is refused.
    Script(ScriptCause),
    /// The event of the line is not enabled.
    NotEnabled,
}

impl Cause {
    ghost use Rattle.cts_run.specs.Causes.{cause_text};

    /// The cause as it is printed.
    pub fn text(self) -> &'static [u8]
        ensures { result.now ≡ cause_text self }
    {
        match self {
            Cause::TooLarge => b"TooLarge",
            Cause::OpenQuote => b"OpenQuote",
            Cause::DanglingJoin => b"DanglingJoin",
            Cause::NotText => b"NotText",
            Cause::WrongCount => b"WrongCount",
            Cause::Definition(cause) => cause.name().as_bytes(),
            Cause::Site(cause) => cause.name().as_bytes(),
            Cause::Script(cause) => cause.name().as_bytes(),
            Cause::NotEnabled => b"NotEnabled",
        }
    }
}
