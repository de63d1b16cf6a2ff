// Plain text.
ghost use Rattle.std.specs.Prelude.{◌≡◌, ◌++◌, IfOk, OnOk};
ghost use Rattle.std.specs.Fmt.{signed_decimal};
ghost use Rattle.cts_base.specs.Prints.{decimal_text};
ghost use Rattle.cts_conv.specs.Plains.{plain_text};

use crate::Value;
use crate::texts::{put_hex, put_text};
use cts_base::{Bytes, Decimal, Memory, print_decimal};
use itoa::Buffer;
use std::alloc::Global;

/// The plain text of a value, in UTF-8: a number in decimal, a text as it is, and bytes as `0x` and two hexadecimal digits each.
/// `Memory` where none was found for it.
pub fn plain(alloc: Global, value: &Value) -> Result<Bytes, Memory>
    ensures { IfOk result (λ text. text ≡ plain_text value.now) }
{
    let mut out = Vec::new(alloc);
    put_plain(alloc, &mut out, value)?;
    Ok(Bytes::of(out))
}

/// Puts the plain text of a value at the end of a text.
pub(crate) fn put_plain(alloc: Global, out: &mut Vec<u8>, value: &Value) -> Result<(), Memory>
    ensures { OnOk result (out.new.items ≡ out.old.items ++ plain_text value.now) }
{
    match value {
        Value::Whole(x) => put_whole(out, *x),
        Value::Parts(decimal) => put_decimal(alloc, out, *decimal),
        Value::Text(text) => put_text(out, text.as_slice()),
        Value::Raw(bytes) => {
            put_text(out, b"0x")?;
            put_hex(out, bytes.as_slice())
        }
    }
}

fn put_whole(out: &mut Vec<u8>, x: i128) -> Result<(), Memory>
    ensures { OnOk result (out.new.items ≡ out.old.items ++ signed_decimal x) }
{
    let mut buffer = Buffer::new();
    put_text(out, buffer.format(x).as_bytes())
}

fn put_decimal(alloc: Global, out: &mut Vec<u8>, decimal: Decimal) -> Result<(), Memory>
    ensures { OnOk result (out.new.items ≡ out.old.items ++ decimal_text decimal.parts) }
{
    let text = print_decimal(alloc, decimal)?;
    put_text(out, text.as_slice())
}
