// Statements that the kind, the colours or the conversion of an item do not allow.
ghost use Rattle.std.specs.Prelude.{◌≡◌, ◌||◌, ◌&&◌, is_some, not};
ghost use Rattle.std.specs.Option.{option_copied};
ghost use Rattle.cts_def.specs.Items.{has_color};
ghost use Rattle.cts_def.specs.Spans.{is_number};
ghost use Rattle.cts_defread.specs.Causes.{passes, is_text, has_limits, has_state_colors, is_poly, is_segmented, is_wrong_kind, is_text_id};

use cts_def::{Conversion, Item, StateDef};
use cts_defstatement::{Detail, Line};

fn is_text(item: &Item) -> bool
    ensures { result ≡ is_text item.now }
{
    !item.kind.is_number()
}

fn has_limits(item: &Item) -> bool
    ensures { result ≡ has_limits item.now }
{
    item.limits.is_some()
}

fn has_color(state: &StateDef) -> bool
    ensures { result ≡ has_color state.now }
{
    state.color.is_some()
}

fn has_state_colors(item: &Item) -> bool
    ensures { result ≡ has_state_colors item.now }
{
    item.states.as_slice().iter().any(has_color)
}

fn is_poly(conversion: &Conversion) -> bool
    ensures { result ≡ is_poly conversion.now }
{
    matches!(conversion, Conversion::Poly(_))
}

fn is_segmented(conversion: &Conversion) -> bool
    ensures { result ≡ is_segmented conversion.now }
{
    matches!(conversion, Conversion::Segments(_))
}

// States are of numbers, and colours exclude limits.
fn takes_no_state(item: Option<&Item>, state: &StateDef) -> bool
    ensures { result ≡ passes (λ i. is_text i || (has_color state.now && has_limits i)) (option_copied item.entry) }
{
    match item {
        Some(item) => is_text(item) || (has_color(state) && has_limits(item)),
        None => false,
    }
}

// Limits are of numbers, and exclude colours.
fn takes_no_limits(item: Option<&Item>) -> bool
    ensures { result ≡ passes (λ i. is_text i || has_state_colors i) (option_copied item.entry) }
{
    match item {
        Some(item) => is_text(item) || has_state_colors(item),
        None => false,
    }
}

// Polynomials are of numbers without segments.
fn takes_no_poly(item: Option<&Item>) -> bool
    ensures { result ≡ passes (λ i. is_text i || is_segmented i.conversion) (option_copied item.entry) }
{
    match item {
        Some(item) => is_text(item) || is_segmented(&item.conversion),
        None => false,
    }
}

// Segments are of numbers without a polynomial.
fn takes_no_segment(item: Option<&Item>) -> bool
    ensures { result ≡ passes (λ i. is_text i || is_poly i.conversion) (option_copied item.entry) }
{
    match item {
        Some(item) => is_text(item) || is_poly(&item.conversion),
        None => false,
    }
}

/// Whether the statement is not for such an item.
pub(crate) fn is_wrong_kind(item: Option<&Item>, line: &Line) -> bool
    ensures { result ≡ is_wrong_kind (option_copied item.entry) line.now }
{
    match line {
        Line::Detail(Detail::State(state)) => takes_no_state(item, state),
        Line::Detail(Detail::Limits(_)) => takes_no_limits(item),
        Line::Detail(Detail::Poly(_)) => takes_no_poly(item),
        Line::Detail(Detail::Segment(_)) => takes_no_segment(item),
        _ => false,
    }
}

/// Whether an id item is no number.
pub(crate) fn is_text_id(line: &Line) -> bool
    ensures { result ≡ is_text_id line.now }
{
    match line {
        Line::Item(head) => head.id.is_some() && !head.kind.is_number(),
        _ => false,
    }
}
