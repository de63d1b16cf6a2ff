// What a rehearsal counts.
ghost use Rattle.std.specs.Prelude.{◌≡◌, Some, length};
ghost use Rattle.std.specs.List.{filter};
ghost use Rattle.cts_run.specs.Rehearsal.{is_command, is_packet, is_refusal, ones, text_refuses};

use cts_entry::{Effect, Entry, Stands, What};
use cts_trace::lend;

/// How many packets there are in a history.
pub fn packets_in<H: Stands>(history: &H) -> u64
    ensures { result ≡ length (filter is_packet (H.list history.now)) }
{
    let mut count = 0;
    for n in 0..history.count() {
        if is_packet(lend(history, n)) {
            count += 1;
        }
    }
    count
}

/// How many commands there are in a history.
pub fn commands_in<H: Stands>(history: &H) -> u64
    ensures { result ≡ length (filter is_command (H.list history.now)) }
{
    let mut count = 0;
    for n in 0..history.count() {
        if is_command(lend(history, n)) {
            count += 1;
        }
    }
    count
}

fn is_packet(entry: &Entry) -> bool
    ensures { result ≡ is_packet entry.now }
{
    match &entry.what {
        What::Packet { .. } => true,
        _ => false,
    }
}

fn is_command(entry: &Entry) -> bool
    ensures { result ≡ is_command entry.now }
{
    match &entry.what {
        What::Command { .. } => true,
        _ => false,
    }
}

/// How many refused commands an event's reply tells, one or none.
pub fn refusals(effect: &Effect) -> u64
    ensures { result ≡ ones (is_refusal effect.now) }
{
    if is_refusal(effect) { 1 } else { 0 }
}

// Whether what an event gave is a reply that refuses a command.
fn is_refusal(effect: &Effect) -> bool
    ensures { result ≡ is_refusal effect.now }
{
    match effect {
        Effect::Reply {
            text: Some(text),
            ..
        } => refuses(text.as_slice()),
        _ => false,
    }
}

// The members of an error stand in the order of their names, the code first.
fn refuses(text: &[u8]) -> bool
    ensures { result ≡ text_refuses (Some text.now) }
{
    text.starts_with(b"{\"error\":{\"code\":-32002,")
}
