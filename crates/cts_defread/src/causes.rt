// The causes that lie in what stands before a statement.
ghost use Rattle.std.specs.Prelude.{◌≡◌, IfOk};
ghost use Rattle.cts_defread.specs.Causes.{holds, is_double, place_cause, place_order};
ghost use Rattle.cts_defread.specs.Drafts.{IsKept};

use crate::draft::Draft;
use crate::kinds::{is_text_id, is_wrong_kind};
use crate::values::{is_bad_format, is_bad_id, is_bad_order, is_bad_preset, is_too_large_in};
use cts_base::Memory;
use cts_defstatement::{DefCause, Line};
use cts_reader::first_that_holds;

/// The causes in the order in which they are tried, after those of the words.
const ORDER: [DefCause; 11] = [
    DefCause::WrongKind,
    DefCause::IdNotWhole,
    DefCause::DoubleName,
    DefCause::AppendLittleBits,
    DefCause::BadPlace,
    DefCause::IdOutOfRange,
    DefCause::DefaultOutOfRange,
    DefCause::ConversionTooLarge,
    DefCause::LimitsOrder,
    DefCause::BadFormat,
    DefCause::TooMany,
];

fn causes() -> &'static [DefCause]
    ensures { result.now ≡ place_order }
{
    &ORDER
}

impl Draft {
    // Whether a cause holds for the line, where it is known whether its name stands already.
    fn holds(&self, cause: DefCause, line: &Line, double: bool) -> bool
        requires kept { IsKept self.now }
        requires double { double ≡ is_double self.now.packets.items line.now }
        ensures { result ≡ holds cause self.now.packets.items self.now.set_names.items line.now }
    {
        match cause {
            DefCause::WrongKind => is_wrong_kind(self.open_item(), line),
            DefCause::IdNotWhole => is_text_id(line),
            DefCause::DoubleName => double,
            DefCause::AppendLittleBits => self.is_little_append(line),
            DefCause::BadPlace => self.is_bad_place(line),
            DefCause::IdOutOfRange => is_bad_id(line),
            DefCause::DefaultOutOfRange => is_bad_preset(line),
            DefCause::ConversionTooLarge => is_too_large_in(self.open_item(), line),
            DefCause::LimitsOrder => is_bad_order(self.open_item(), line),
            DefCause::BadFormat => is_bad_format(line),
            DefCause::TooMany => self.is_too_many(line),
            _ => false,
        }
    }

    /// The first cause that lies in what stands before the line.
    pub(crate) fn first_cause(&self, line: &Line) -> Result<Option<DefCause>, Memory>
        requires { IsKept self.now }
        ensures { IfOk result (λ c. c ≡ place_cause self.now.packets.items self.now.set_names.items line.now) }
    {
        let double = self.is_double(line)?;
        Ok(first_that_holds(causes(), |cause| self.holds(cause, line, double)))
    }
}
