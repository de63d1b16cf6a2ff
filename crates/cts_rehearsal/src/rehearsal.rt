// A rehearsal: its events, one choice after the other.
ghost use Rattle.std.specs.Prelude.{◌≡◌, ◌≤◌, ◌++◌, [], length, IfOk, OnErr, OnOk, MatchOption};
ghost use Rattle.cts_rehearsal.specs.Generated.{generated, opening};
ghost use Rattle.cts_rehearsal.specs.Numbers.{choice_of, next_number};

use crate::choice::{AUX, INST, OUT, put_choice};
use cts_base::Memory;
use cts_entry::Event;
use std::alloc::Global;
use std::marker::Model;

/// The events of a rehearsal that are still to come. They are made as they are asked for, those of one choice at a time, so a long
/// rehearsal takes no more memory than a short one.
#[derive(Drop)]
pub struct Rehearsal {
    // the number from which the next one is made
    number: u64,
    // how many choices are still to come
    left: u64,
    // whether the connections were opened
    opened: bool,
}

impl Model for Rehearsal {
    ghost use Rattle.std.specs.Prelude.{List, if◌then◌else◌};
    ghost use Rattle.cts_entry.specs.declared.event.Event.{Event};
    ghost use Rattle.cts_rehearsal.specs.Generated.{events_from, events_in_all};

    ghost Value = { List Event };

    ghost view = { λ r. if r.opened then events_from r.left r.number else events_in_all r.left r.number };
}

impl Rehearsal {
    /// A rehearsal of this number, of which no event was made.
    pub fn new(n: u64) -> Rehearsal
        ensures { result ≡ generated n }
    {
        Rehearsal {
            number: n,
            left: n,
            opened: false,
        }
    }

    /// The next events, one to three; none at the end.
    ///
    /// # Errors
    ///
    /// `Memory`. The rehearsal is then as before.
    pub fn next_events(&mut self, alloc: Global) -> Result<Option<Vec<Event>>, Memory>
        ensures next { IfOk result (λ next. MatchOption next (self.old ≡ []) (λ events. self.old ≡ events.items ++ self.new)) }
        ensures few { IfOk result (λ next. MatchOption next Unit (λ events. (1 ≤ length events.items) × (length events.items ≤ 3))) }
        ensures ended { IfOk result (λ next. MatchOption next (self.new ≡ []) (λ events. Unit)) }
        ensures memory { OnErr result (self.new ≡ self.old) }
    {
        let mut events = Vec::new(alloc);
        if !self.opened {
            put_opening(&mut events)?;
            self.opened = true;
        } else if self.left == 0 {
            return Ok(None);
        } else {
            let number = next_number(self.number);
            put_choice(alloc, &mut events, choice_of(number))?;
            self.number = number;
            self.left -= 1;
        }
        Ok(Some(events))
    }
}

/// All events of a rehearsal of this number.
///
/// # Errors
///
/// `Memory`.
pub fn generated(alloc: Global, n: u64) -> Result<Vec<Event>, Memory>
    ensures { IfOk result (λ v. v.items ≡ generated n) }
{
    let mut all = Vec::new(alloc);
    let mut rehearsal = Rehearsal::new(n);
    'rest: while let Some(mut events) = rehearsal.next_events(alloc)? {
        all.append(&mut events)?;
    }
    Ok(all)
}

// The connections of the demo's site are opened, its interfaces first.
fn put_opening(events: &mut Vec<Event>) -> Result<(), Memory>
    ensures { OnOk result (events.new.items ≡ events.old.items ++ opening) }
{
    events.push(Event::Opens(INST))?;
    events.push(Event::Opens(AUX))?;
    events.push(Event::Opens(OUT))?;
    Ok(())
}

// The number that follows.
fn next_number(number: u64) -> u64
    ensures { result ≡ next_number number }
{
    number
        .wrapping_mul(6_364_136_223_846_793_005)
        .wrapping_add(1_442_695_040_888_963_407)
}

// The part of a number that chooses what happens.
fn choice_of(number: u64) -> u64
    ensures { result ≡ choice_of number }
{
    number >> 33
}
