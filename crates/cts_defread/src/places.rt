// Places at which no item may lie.
ghost use Rattle.std.specs.Prelude.{◌≡◌, ◌≤◌, ◌&&◌, ◌||◌, MatchOption, IsTrue, int_lt, pos, unsigned_abs, is_none, is_some};
ghost use Rattle.std.specs.Int.{is_negative};
ghost use Rattle.cts_defstatement.specs.declared.line.Line.TheVariants as line;
ghost use Rattle.std.specs.List.{list_any};
ghost use Rattle.cts_bits.specs.Places.{is_whole};
ghost use Rattle.cts_def.specs.Items.{is_to_the_end};
ghost use Rattle.cts_def.specs.Spans.{is_far, is_misplaced};
ghost use Rattle.cts_defread.specs.Causes.{open_items, open_end, order_in, span_in, is_little_append, is_open_ended, is_after_open_end};
ghost use Rattle.cts_defread.specs.Causes.{is_id_from_end, is_from_end_in_command, is_after_rest_in_command, is_bad_place};
ghost use Rattle.cts_defread.specs.Standing.{offset_or};
ghost use Rattle.cts_defread.specs.Drafts.{IsKept};
ghost use Rattle.cts_words.specs.Blocks.{last_of};

use crate::draft::Draft;
use cts_bits::{LAST_PLACE, Order};
use cts_def::{ItemKind, Span};
use cts_defstatement::{ItemLine, Line};

// A number of bits that is not too far to either side.
fn near(bits: i128) -> Option<i32>
    ensures { MatchOption result (IsTrue (is_far bits)) (λ b. b ≡ bits) }
{
    if bits.unsigned_abs() > u128::from(LAST_PLACE) {
        return None;
    }
    i32::try_from(bits).ok()
}

// Whether no item may lie there, whatever stands before.
fn is_misplaced(kind: ItemKind, order: Order, offset: i128, size: i128) -> bool
    ensures { result ≡ is_misplaced (record { kind = kind; order = order; offset = offset; size = size }) }
{
    match (near(offset), near(size)) {
        (Some(offset), Some(size)) => is_misplaced_near(kind, order, offset, size),
        _ => true,
    }
}

fn is_misplaced_near(kind: ItemKind, order: Order, offset: i32, size: i32) -> bool
    ensures { result ≡ is_misplaced (record { kind = kind; order = order; offset = offset; size = size }) }
{
    let span = Span {
        kind,
        order,
        offset,
        size,
    };
    span.is_misplaced()
}

// Whether the bits at the place are whole bytes of a machine's number.
fn is_whole(end: u32, size: i128) -> bool
    ensures { result ≡ int_lt (pos 0) size && is_whole end (unsigned_abs size) }
{
    let bits = size.unsigned_abs();
    0 < size && end % 8 == 0 && (bits == 8 || bits == 16 || bits == 32 || bits == 64)
}

fn any_of(by_itself: bool, later: bool, id: bool, parameter: bool, last: bool) -> bool
    ensures { result ≡ by_itself || later || id || parameter || last }
{
    by_itself || later || id || parameter || last
}

impl Draft {
    // Where an item would begin.
    fn offset(&self, own: Option<i128>) -> i128
        requires { IsKept self.now }
        ensures { result ≡ offset_or (open_end self.now.packets.items) own }
    {
        own.unwrap_or(i128::from(self.end))
    }

    fn is_little_head(&self, head: &ItemLine) -> bool
        requires { IsKept self.now }
        ensures { result ≡ is_little_append self.now.packets.items (line.Item head.now) }
    {
        head.offset.is_none()
            && head.kind.is_number()
            && matches!(self.order(head.order), Order::Little)
            && !is_whole(self.end, head.size)
    }

    /// Whether the statement appends a little-endian bit field.
    pub(crate) fn is_little_append(&self, line: &Line) -> bool
        requires { IsKept self.now }
        ensures { result ≡ is_little_append self.now.packets.items line.now }
    {
        match line {
            Line::Item(head) => self.is_little_head(head),
            _ => false,
        }
    }

    // Whether no item may lie where this one would.
    fn is_misplaced(&self, head: &ItemLine) -> bool
        requires { IsKept self.now }
        ensures { result ≡ is_misplaced (span_in self.now.packets.items head.now) }
    {
        let size = head.size;
        is_misplaced(
            head.kind,
            self.order(head.order),
            self.offset(head.offset),
            size,
        )
    }

    // Whether it is appended after an item that goes to the packet's end, or up to some bits before it.
    fn is_after_open_end(&self, head: &ItemLine) -> bool
        requires { IsKept self.now }
        ensures { result ≡ is_after_open_end self.now.packets.items head.now }
    {
        head.offset.is_none() && self.is_open_ended
    }

    // Whether it is an id that is counted from the packet's end.
    fn is_id_from_end(&self, head: &ItemLine) -> bool
        requires { IsKept self.now }
        ensures { result ≡ is_id_from_end self.now.packets.items head.now }
    {
        head.id.is_some() && self.offset(head.offset) < 0
    }

    // Whether it is a parameter that is counted from the end, or leaves bits before it.
    fn is_from_end_in_command(&self, head: &ItemLine) -> bool
        requires { IsKept self.now }
        ensures { result ≡ is_from_end_in_command self.now.packets.items head.now }
    {
        self.is_command() && (self.offset(head.offset) < 0 || head.size < 0)
    }

    // Whether it is a parameter after one that goes to the end.
    fn is_after_rest_in_command(&self, head: &ItemLine) -> bool
        requires { IsKept self.now }
        ensures { result ≡ is_after_rest_in_command self.now.packets.items head.now }
    {
        self.is_command() && self.is_to_the_end
    }

    // Whether one of the ten tests of places holds.
    fn has_bad_place(&self, head: &ItemLine) -> bool
        requires { IsKept self.now }
        ensures { result ≡ is_bad_place self.now.packets.items (line.Item head.now) }
    {
        let by_itself = self.is_misplaced(head);
        let later = self.is_after_open_end(head);
        let id = self.is_id_from_end(head);
        let parameter = self.is_from_end_in_command(head);
        any_of(
            by_itself,
            later,
            id,
            parameter,
            self.is_after_rest_in_command(head),
        )
    }

    /// Whether an item may not lie where the statement puts it.
    pub(crate) fn is_bad_place(&self, line: &Line) -> bool
        requires { IsKept self.now }
        ensures { result ≡ is_bad_place self.now.packets.items line.now }
    {
        match line {
            Line::Item(head) => self.has_bad_place(head),
            _ => false,
        }
    }
}
