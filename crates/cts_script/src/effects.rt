// The line of an effect.
ghost use Rattle.std.specs.Prelude.{◌≡◌, ◌++◌, ◌∷◌, [], codes, IfOk, OnOk};
ghost use Rattle.std.specs.Fmt.{decimal};
ghost use Rattle.cts_script.specs.Effects.{desk_text, effect_line as the_line, text_or_dash};
ghost use Rattle.cts_script.specs.Lines.{hex_or_dash};
ghost use Rattle.cts_script.specs.Spacing.{spaced};

use crate::makers::put_maker_word;
use crate::texts::{put_hex_word, put_number, put_number_word, put_text, put_word};
use cts_base::{Bytes, Memory};
use cts_def::{Site, interface_name};
use cts_entry::Effect;
use std::alloc::Global;

/// The line of what an event gave besides its entries, with its line end; no bytes where it gave nothing else. A number
/// that names nothing in the site has no text. `Memory` where no memory was found for the line.
pub fn effect_line(alloc: Global, site: &Site, effect: &Effect) -> Result<Bytes, Memory>
    ensures { IfOk result (λ b. b ≡ the_line site.now effect.now) }
{
    let mut out = Vec::new(alloc);
    put_effect_line(&mut out, site, effect)?;
    Ok(Bytes::of(out))
}

/// Appends what [`effect_line`] gives to a text. After `Memory` the text may have some of it.
pub fn put_effect_line(out: &mut Vec<u8>, site: &Site, effect: &Effect) -> Result<(), Memory>
    ensures { OnOk result (out.new.items ≡ out.old.items ++ the_line site.now effect.now) }
{
    match effect {
        Effect::Posted => Ok(()),
        Effect::Reply { desk, front, text } => put_reply(out, *desk, *front, text_or_dash(text)),
        Effect::Written { interface, bytes } => {
            put_text(out, b"WRITTEN")?;
            put_word(out, interface_name(site, *interface))?;
            put_bytes_end(out, bytes.as_slice())
        }
        Effect::Logged { tlm, cmd } => {
            put_text(out, b"LOGGED")?;
            put_number_word(out, tlm.as_slice().len() as u64)?;
            put_number_word(out, cmd.as_slice().len() as u64)?;
            put_text(out, b"\n")
        }
        Effect::Routed { slot, bytes } => {
            put_text(out, b"ROUTED")?;
            put_maker_word(out, site, *slot)?;
            put_bytes_end(out, bytes.as_slice())
        }
    }
}

fn put_reply(out: &mut Vec<u8>, desk: u32, front: u64, text: &[u8]) -> Result<(), Memory>
    ensures { OnOk result (out.new.items ≡ out.old.items
        ++ (spaced (codes "REPLY" ∷ desk_text desk ∷ decimal front ∷ text.now ∷ []) ++ (10 ∷ []))) }
{
    put_text(out, b"REPLY")?;
    put_desk_word(out, desk)?;
    put_number_word(out, front)?;
    put_word_end(out, text)
}

fn put_desk_word(out: &mut Vec<u8>, desk: u32) -> Result<(), Memory>
    ensures { OnOk result (out.new.items ≡ out.old.items ++ 32 ∷ desk_text desk) }
{
    put_word(out, b"DESK/")?;
    put_number(out, u64::from(desk))
}

fn text_or_dash(text: &Option<Bytes>) -> &[u8]
    ensures { result.now ≡ text_or_dash text.now }
{
    match text {
        Some(text) => text.as_slice(),
        None => b"-",
    }
}

// A space and the bytes in hexadecimal, or a dash for none, and the line end.
fn put_bytes_end(out: &mut Vec<u8>, bytes: &[u8]) -> Result<(), Memory>
    ensures { OnOk result (out.new.items ≡ out.old.items ++ (32 ∷ hex_or_dash bytes.now ++ (10 ∷ []))) }
{
    put_hex_word(out, bytes)?;
    put_text(out, b"\n")
}

// A space and the text, and the line end.
fn put_word_end(out: &mut Vec<u8>, text: &[u8]) -> Result<(), Memory>
    ensures { OnOk result (out.new.items ≡ out.old.items ++ (32 ∷ text.now ++ (10 ∷ []))) }
{
    put_word(out, text)?;
    put_text(out, b"\n")
}
