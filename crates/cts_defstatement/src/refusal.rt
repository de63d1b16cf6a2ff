// The causes for which the words of a statement are refused.
ghost use Rattle.std.specs.Prelude.{◌≡◌, find, length};
ghost use Rattle.cts_defstatement.specs.Forms.{wanted};
ghost use Rattle.cts_defstatement.specs.Refusals.{is_outside, fields, holds, word_order};

use crate::field::Check;
use crate::form::Form;
use crate::open::is_of_other_kind;
use crate::{DefCause, Keyword, Open};
use cts_base::Bytes;
use cts_reader::first_that_holds;

/// The causes of words, in the order in which they are tried.
const ORDER: [DefCause; 8] = [
    DefCause::UnknownKeyword,
    DefCause::OutsidePacket,
    DefCause::WrongCount,
    DefCause::BadName,
    DefCause::FloatItem,
    DefCause::DerivedItem,
    DefCause::ArrayItem,
    DefCause::NotNumber,
];

// Whether what has to be open before a statement is not.
fn is_outside(opened: Open, keyword: Keyword) -> bool
    ensures { result ≡ is_outside opened keyword }
{
    match keyword {
        Keyword::Command | Keyword::Telemetry => false,
        Keyword::Item { .. }
        | Keyword::Parameter { .. }
        | Keyword::Hazardous
        | Keyword::Meta
        | Keyword::AllowShort => opened.kind().is_none(),
        _ => !opened.has_item(),
    }
}

fn holds(cause: DefCause, opened: Open, keyword: Keyword, form: &Form, words: &[Bytes]) -> bool
    requires fields { form.now.fields.now ≡ fields opened keyword words.now }
    requires least { form.now.least ≡ length (wanted keyword words.now) }
    ensures { result ≡ holds cause opened keyword words.now }
{
    match cause {
        DefCause::UnknownKeyword => is_of_other_kind(opened.kind(), keyword.kind()),
        DefCause::OutsidePacket => is_outside(opened, keyword),
        DefCause::WrongCount => !form.fits(keyword, words.len())
            || form.fails(Check::Choice, words),
        DefCause::BadName => form.fails(Check::Name, words),
        DefCause::FloatItem => form.fails(Check::NotFloat, words),
        DefCause::DerivedItem => form.fails(Check::NotDerived, words),
        DefCause::ArrayItem => form.fails(Check::NotArray, words),
        DefCause::NotNumber => form.fails(Check::Number, words),
        _ => false,
    }
}

fn causes() -> &'static [DefCause]
    ensures { result.now ≡ word_order }
{
    &ORDER
}

/// The first cause for which the words after a keyword are refused.
pub(crate) fn first_cause(opened: Open, keyword: Keyword, words: &[Bytes]) -> Option<DefCause>
    ensures { result ≡ find (λ c. holds c opened keyword words.now) word_order }
{
    let form = Form::of(opened.form_kind(), keyword, words);
    first_that_holds(
        causes(),
        |cause| holds(cause, opened, keyword, &form, words),
    )
}
