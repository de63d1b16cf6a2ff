// Numbers and texts that do not fit their items.
ghost use Rattle.std.specs.Prelude.{◌≡◌, ◌≤◌, ◌&&◌, ◌||◌, not, codes, length, unsigned_abs};
ghost use Rattle.std.specs.Option.{option_copied};
ghost use Rattle.cts_def.specs.Items.{has_room, is_same};
ghost use Rattle.cts_defstatement.specs.Numbers.{is_size};
ghost use Rattle.cts_defread.specs.Causes.{passes, fits, is_unfit_id, is_bad_id, is_unfit_preset, is_bad_preset, is_large, is_large_conversion};
ghost use Rattle.cts_defread.specs.Causes.{is_too_large_in, has_no_limits, is_bad_order, is_bad_format};

use cts_base::{Decimal, Name};
use cts_def::{Item, ItemKind, Preset, is_format, is_too_large};
use cts_defstatement::{Detail, ItemLine, Line};

// Whether the number has a spelling in a field of this kind and size.
fn fits(kind: ItemKind, size: i128, number: i128) -> bool
    ensures { result ≡ fits kind size number }
{
    if kind.is_number() && 1 <= size && size <= 64 {
        kind.is_spelled(size.unsigned_abs() as u32, number)
    } else {
        false
    }
}

fn is_unfit_id(head: &ItemLine) -> bool
    ensures { result ≡ is_unfit_id head.now head.now.id }
{
    match head.id {
        Some(id) => !fits(head.kind, head.size, id),
        None => false,
    }
}

/// Whether an id has no spelling in its field.
pub(crate) fn is_bad_id(line: &Line) -> bool
    ensures { result ≡ is_bad_id line.now }
{
    match line {
        Line::Item(head) => is_unfit_id(head),
        _ => false,
    }
}

// Whether the bytes have room in a text or block of the size.
fn has_room(size: i128, count: usize) -> bool
    ensures { result ≡ has_room size count }
{
    size <= 0 || 8 * (count as u128) <= size.unsigned_abs()
}

fn is_unfit_preset(head: &ItemLine) -> bool
    ensures { result ≡ is_unfit_preset head.now head.now.preset }
{
    match &head.preset {
        None => true,
        Some(Preset::Whole(number)) => !fits(head.kind, head.size, *number),
        Some(Preset::Raw(bytes)) => {
            head.kind.is_number() || !has_room(head.size, bytes.as_slice().len())
        }
    }
}

/// Whether a default has no spelling in its field.
pub(crate) fn is_bad_preset(line: &Line) -> bool
    ensures { result ≡ is_bad_preset line.now }
{
    match line {
        Line::Item(head) => is_unfit_preset(head),
        _ => false,
    }
}

// Whether the numbers of an item could be converted to too much.
fn is_large(coefficients: &[Decimal], item: &Item) -> bool
    ensures { result ≡ is_large coefficients.now item.now }
{
    item.kind.is_number() && is_too_large(item.size.unsigned_abs(), coefficients)
}

fn is_large_conversion(coefficients: &[Decimal], item: Option<&Item>) -> bool
    ensures { result ≡ is_large_conversion coefficients.now (option_copied item.entry) }
{
    match item {
        Some(item) => is_large(coefficients, item),
        None => false,
    }
}

/// Whether a conversion of the item could reach too much.
pub(crate) fn is_too_large_in(item: Option<&Item>, line: &Line) -> bool
    ensures { result ≡ is_too_large_in (option_copied item.entry) line.now }
{
    match line {
        Line::Detail(Detail::Poly(coefficients)) => {
            is_large_conversion(coefficients.as_slice(), item)
        }
        Line::Detail(Detail::Segment(segment)) => {
            is_large_conversion(segment.coefficients.as_slice(), item)
        }
        _ => false,
    }
}

fn has_no_limits(item: Option<&Item>) -> bool
    ensures { result ≡ passes has_no_limits (option_copied item.entry) }
{
    match item {
        Some(item) => item.limits.is_none(),
        None => false,
    }
}

fn is_default(set: &Name) -> bool
    ensures { result ≡ is_same set.now (codes "DEFAULT") }
{
    set.as_slice() == b"DEFAULT".as_slice()
}

/// Whether limits are not in order, or the first of their item are of another set than DEFAULT.
pub(crate) fn is_bad_order(item: Option<&Item>, line: &Line) -> bool
    ensures { result ≡ is_bad_order (option_copied item.entry) line.now }
{
    match line {
        Line::Detail(Detail::Limits(limits)) => {
            !limits.limits.are_in_order() || (has_no_limits(item) && !is_default(&limits.set))
        }
        _ => false,
    }
}

/// Whether a text is no format.
pub(crate) fn is_bad_format(line: &Line) -> bool
    ensures { result ≡ is_bad_format line.now }
{
    match line {
        Line::Detail(Detail::Format(text)) => !is_format(text.as_slice()),
        _ => false,
    }
}
