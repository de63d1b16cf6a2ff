// The text of what an entry says.
ghost use Rattle.std.specs.Prelude.{◌≡◌, ◌++◌, ◌∷◌, [], codes, OnOk};
ghost use Rattle.cts_script.specs.Lines.{bytes_text, hex_or_dash, ident_names, item_text, not_sent_text, packet_word, switch_text, what_text};
ghost use Rattle.cts_script.specs.Spacing.{spaced};

use crate::limits::{put_limits_words, put_watch_words};
use crate::texts::{put_hex_word, put_word};
use crate::why::put_closed_words;
use cts_base::Memory;
use cts_def::{Ident, Site, command_names, item_name, packet_names};
use cts_entry::{NotSent, What};
use std::alloc::Global;

/// A space and what an entry says.
pub(crate) fn put_what_words(
    alloc: Global,
    out: &mut Vec<u8>,
    site: &Site,
    what: &What,
) -> Result<(), Memory>
    ensures { OnOk result
        (out.new.items ≡ out.old.items ++ 32 ∷ what_text site.now what.now) }
{
    match what {
        What::Opened => put_word(out, b"OPENED"),
        What::Packet {
            ident,
            stored,
            bytes,
        } => {
            let names = names_of(site, *ident);
            put_bytes_words(out, packet_word(*stored), names, bytes.as_slice())
        }
        What::Closed {
            why,
            loss,
            unposted,
            unsent,
        } => put_closed_words(out, *why, loss, *unposted, *unsent),
        What::Command { command, bytes, .. } => {
            let names = command_names(site, *command);
            put_bytes_words(out, b"COMMAND", names, bytes.as_slice())
        }
        What::SetLimits {
            packet,
            item,
            set,
            limits,
            persistence,
            enabled,
        } => {
            put_item_words(out, b"LIMITS", site, *packet, *item)?;
            put_watch_words(out, set.as_slice(), *persistence, *enabled)?;
            put_limits_words(alloc, out, limits)
        }
        What::Enable {
            packet,
            item,
            enabled,
        } => put_item_words(out, switch(*enabled), site, *packet, *item),
        What::LimitsSetIs { set } => put_pair_words(out, b"LIMITSSET", set.as_slice()),
        What::Injected { packet, bytes } => {
            let names = packet_names(site, *packet);
            put_bytes_words(out, b"INJECTED", names, bytes.as_slice())
        }
        What::Unrouted { why, bytes } => put_unrouted_words(out, *why, bytes.as_slice()),
        What::Stop => put_word(out, b"STOP"),
        What::Ended => put_word(out, b"ENDED"),
    }
}

// The target and the name of a packet that was identified or not.
fn names_of(site: &Site, ident: Ident) -> (&[u8], &[u8])
    ensures target { result.0.now ≡ (ident_names site.now ident).0 }
    ensures name { result.1.now ≡ (ident_names site.now ident).1 }
{
    match ident {
        Ident::Known(number) => packet_names(site, number),
        Ident::Unknown => (b"UNKNOWN", b"UNKNOWN"),
    }
}

// A space and two words.
fn put_pair_words(out: &mut Vec<u8>, word: &[u8], next: &[u8]) -> Result<(), Memory>
    ensures { OnOk result
        (out.new.items ≡ out.old.items ++ 32 ∷ spaced (word.now ∷ next.now ∷ [])) }
{
    put_word(out, word)?;
    put_word(out, next)
}

// A space, a word, a target and a name, and then bytes.
fn put_bytes_words(
    out: &mut Vec<u8>,
    word: &[u8],
    names: (&[u8], &[u8]),
    bytes: &[u8],
) -> Result<(), Memory>
    ensures { OnOk result (out.new.items ≡ out.old.items
        ++ 32 ∷ bytes_text word.now (names.entry.0.now, names.entry.1.now) bytes.now) }
{
    let (target, name) = names;
    put_pair_words(out, word, target)?;
    put_word(out, name)?;
    put_hex_word(out, bytes)
}

// A space, why a command's bytes were not sent, and the bytes.
fn put_unrouted_words(out: &mut Vec<u8>, why: NotSent, bytes: &[u8]) -> Result<(), Memory>
    ensures { OnOk result (out.new.items ≡ out.old.items
        ++ 32 ∷ spaced (codes "UNROUTED" ∷ not_sent_text why ∷ hex_or_dash bytes.now ∷ [])) }
{
    put_pair_words(out, b"UNROUTED", not_sent(why))?;
    put_hex_word(out, bytes)
}

// A space, a word, and the names of an item.
fn put_item_words(
    out: &mut Vec<u8>,
    word: &[u8],
    site: &Site,
    packet: u32,
    item: u32,
) -> Result<(), Memory>
    ensures { OnOk result (out.new.items ≡ out.old.items
        ++ 32 ∷ item_text word.now site.now packet item) }
{
    let (target, name) = packet_names(site, packet);
    put_pair_words(out, word, target)?;
    put_pair_words(out, name, item_name(site, packet, item))
}

fn packet_word(stored: bool) -> &'static [u8]
    ensures { result.now ≡ packet_word stored }
{
    if stored { b"STORED" } else { b"PACKET" }
}

fn switch(enabled: bool) -> &'static [u8]
    ensures { result.now ≡ switch_text enabled }
{
    if enabled { b"ENABLE" } else { b"DISABLE" }
}

fn not_sent(why: NotSent) -> &'static [u8]
    ensures { result.now ≡ not_sent_text why }
{
    match why {
        NotSent::Unknown => b"UNKNOWN",
        NotSent::NotConnected => b"NOTCONNECTED",
    }
}
