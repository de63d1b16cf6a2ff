// The value of each kind.
ghost use Rattle.std.specs.Prelude.{◌≡◌, Ok, IfOk, IsTrue};
ghost use Rattle.std.specs.List.{Contains};
ghost use Rattle.cts_def.specs.Spans.{is_number};
ghost use Rattle.cts_conv.specs.Kinds.{value_of};
ghost use Rattle.cts_conv.specs.Raws.{raw_value};

use crate::converting::converted;
use crate::formatting::{formatted, with_units};
use crate::raws::raw;
use crate::{Value, ValueKind};
use cts_base::Memory;
use cts_def::{Item, Packet};
use std::alloc::Global;

/// The value of this kind of an item of the packet, in a packet's bytes: what [`raw`], [`converted`], [`formatted`] or
/// [`with_units`] gives. The raw value of a number takes no memory. `Memory` where none was found for any other.
pub fn value_of(
    alloc: Global,
    packet: &Packet,
    item: &Item,
    bytes: &[u8],
    kind: ValueKind,
) -> Result<Value, Memory>
    requires { Contains packet.now.items item.now }
    ensures value { IfOk result (λ v. v ≡ value_of kind packet.now item.now bytes.now) }
    ensures number { kind ≡ ValueKind.Raw → IsTrue (is_number item.now.kind)
        → result ≡ Ok (raw_value packet.now item.now bytes.now) }
{
    let value = raw(alloc, packet, item, bytes)?;
    match kind {
        ValueKind::Raw => Ok(value),
        ValueKind::Converted => converted(alloc, item, &value),
        ValueKind::Formatted => formatted(alloc, item, &value).map(Value::Text),
        ValueKind::WithUnits => with_units(alloc, item, &value).map(Value::Text),
    }
}
