// What a desk puts.
ghost use Rattle.std.specs.Prelude.{◌≡◌, ◌≤◌, ◌+◌, ◌++◌, drop, length, take, true, Option, Some, IsTrue, option_map};
ghost use Rattle.cts_outside.specs.Lines.{LinkPuts};
ghost use Rattle.cts_http.specs.Texts.{is_refusal, refusal_text};
ghost use Rattle.cts_desk.specs.Faults.{FaultsRise};
ghost use Rattle.cts_desk.specs.Exchanges.{out_of_memory};
ghost use Rattle.cts_http.specs.Streams.{response_with};
ghost use Rattle.cts_desk.specs.Streams.{last_front};

use cts_http::{refusal, response};
use cts_outside::{Dialer, PutFailed};

/// How many bytes of a response are put in one call at most: a short one is then one segment for its client, who is woken once.
const AT_ONCE: usize = 2_048;

// What is said where no memory was found.
#[tactic(auto, unfolding(crate::specs::Exchanges::out_of_memory))]
pub(crate) fn out_of_memory() -> &'static [u8]
    ensures { result.now ≡ out_of_memory }
{
    b"{\"error\":{\"code\":-32004,\"message\":\"Out of memory\"},\"id\":null,\"jsonrpc\":\"2.0\"}"
}

// Puts a text and then another one.
fn put_in_turn<R: Dialer>(door: &mut R, first: &[u8], second: &[u8]) -> Result<(), PutFailed>
    requires linked { (R.seen door.old).linked ≡ true }
    ensures content { LinkPuts (R.seen door.old).told (R.seen door.new).told (first.now ++ second.now) result }
    ensures linked { (R.seen door.new).linked ≡ true }
    ensures dials { (R.seen door.new).failed_dials ≡ (R.seen door.old).failed_dials }
    ensures faults { FaultsRise (R.seen door.old) (R.seen door.new) }
{
    match door.put(first) {
        Ok(()) => door.put(second),
        Err(fault) => Err(fault),
    }
}

// Puts a text and another one after it, in one call where they are short.
fn put_both<R: Dialer>(door: &mut R, first: &[u8], second: &[u8]) -> Result<(), PutFailed>
    requires linked { (R.seen door.old).linked ≡ true }
    ensures content { LinkPuts (R.seen door.old).told (R.seen door.new).told (first.now ++ second.now) result }
    ensures linked { (R.seen door.new).linked ≡ true }
    ensures dials { (R.seen door.new).failed_dials ≡ (R.seen door.old).failed_dials }
    ensures faults { FaultsRise (R.seen door.old) (R.seen door.new) }
{
    let mut whole = [0u8; AT_ONCE];
    if first.len() > AT_ONCE || second.len() > AT_ONCE - first.len() {
        return put_in_turn(door, first, second);
    }
    let end = join(first, second, &mut whole);
    door.put(&whole[..end])
}

// Writes a text and another one after it, and answers how many bytes they are.
fn join(first: &[u8], second: &[u8], whole: &mut [u8; AT_ONCE]) -> usize
    requires room { length first.now + length second.now ≤ 2048 }
    ensures joined { take result whole.new ≡ first.now ++ second.now }
    ensures end { result ≤ 2048 }
{
    let middle = write_at(first, 0, whole);
    write_at(second, middle, whole)
}

// Writes a text from this place on, and answers where it ends.
fn write_at(text: &[u8], at: usize, whole: &mut [u8; AT_ONCE]) -> usize
    requires room { at + length text.now ≤ 2048 }
    ensures written { whole.new ≡ take at whole.old ++ (text.now ++ drop (at + length text.now) whole.old) }
    ensures end { result ≡ at + length text.now }
{
    let end = at + text.len();
    whole[at..end].copy_from_slice(text);
    end
}

/// Puts a whole response.
pub(crate) fn put_response<R: Dialer>(
    door: &mut R,
    front: u64,
    text: Option<&[u8]>,
) -> Result<(), PutFailed>
    requires linked { (R.seen door.old).linked ≡ true }
    ensures content { LinkPuts (R.seen door.old).told (R.seen door.new).told (response_with front (option_map (λ t. t.now) text.entry)) result }
    ensures linked { (R.seen door.new).linked ≡ true }
    ensures dials { (R.seen door.new).failed_dials ≡ (R.seen door.old).failed_dials }
    ensures faults { FaultsRise (R.seen door.old) (R.seen door.new) }
{
    match text {
        Some(text) => put_text(door, front, text),
        None => {
            let mut head = [0u8; 160];
            let count = response(front, None, &mut head);
            door.put(&head[..count])
        }
    }
}

fn put_text<R: Dialer>(door: &mut R, front: u64, text: &[u8]) -> Result<(), PutFailed>
    requires linked { (R.seen door.old).linked ≡ true }
    ensures content { LinkPuts (R.seen door.old).told (R.seen door.new).told (response_with front (Some text.now)) result }
    ensures linked { (R.seen door.new).linked ≡ true }
    ensures dials { (R.seen door.new).failed_dials ≡ (R.seen door.old).failed_dials }
    ensures faults { FaultsRise (R.seen door.old) (R.seen door.new) }
{
    let mut head = [0u8; 160];
    let count = response(front, Some(text.len() as u64), &mut head);
    put_both(door, &head[..count], text)
}

/// Puts a whole refusal.
pub(crate) fn put_refusal<R: Dialer>(door: &mut R, status: u16) -> Result<(), PutFailed>
    requires linked { (R.seen door.old).linked ≡ true }
    requires status { IsTrue (is_refusal status) }
    ensures content { LinkPuts (R.seen door.old).told (R.seen door.new).told (refusal_text status) result }
    ensures linked { (R.seen door.new).linked ≡ true }
    ensures dials { (R.seen door.new).failed_dials ≡ (R.seen door.old).failed_dials }
    ensures faults { FaultsRise (R.seen door.old) (R.seen door.new) }
{
    let mut whole = [0u8; 160];
    let count = refusal(status, &mut whole);
    door.put(&whole[..count])
}

// The front of the last request, or 0 where there was none.
fn last_front(fronts: &[u64]) -> u64
    ensures { result ≡ last_front fronts.now }
{
    match fronts.last() {
        Some(front) => *front,
        None => 0,
    }
}

/// Puts the response that is made without memory, with the last front.
pub(crate) fn put_memory<R: Dialer>(door: &mut R, fronts: &[u64]) -> Result<(), PutFailed>
    requires linked { (R.seen door.old).linked ≡ true }
    ensures content { LinkPuts (R.seen door.old).told (R.seen door.new).told (response_with (last_front fronts.now) (Some out_of_memory)) result }
    ensures linked { (R.seen door.new).linked ≡ true }
    ensures dials { (R.seen door.new).failed_dials ≡ (R.seen door.old).failed_dials }
    ensures faults { FaultsRise (R.seen door.old) (R.seen door.new) }
{
    put_response(door, last_front(fronts), Some(out_of_memory()))
}
