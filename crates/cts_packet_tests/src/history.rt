// What histories say of commands.
use cts_base::Bytes;
use cts_def::Time;
use cts_entry::{Entry, Stands, Steps, What, commands_for, is_command_for, place_after};
use cts_rows::{Answers, debug_of, number, rows_end_so};
use std::alloc::Global;
use std::sync::ledger::Ledger;
use std::test::Fail;

const NOON: Time = Time {
    seconds: 12,
    micros: 0,
};

fn push_command(alloc: Global, history: &mut Vec<Entry>, interface: u32) -> Result<(), Fail> {
    let what = What::Command {
        interface,
        command: 0,
        bytes: Bytes::copy(alloc, b"\x07")?,
    };
    Ok(history.push(Entry {
        by: 24,
        time: NOON,
        what,
    })?)
}

/// An opening, and commands for the interfaces 0, 1 and 0.
fn history(alloc: Global) -> Result<Vec<Entry>, Fail> {
    let mut history = Vec::new(alloc);
    history.push(Entry::opened(0, NOON))?;
    for interface in b"\x00\x01\x00" {
        push_command(alloc, &mut history, u32::from(*interface))?;
    }
    Ok(history)
}

/// An entry, and whether it is a command for interface 0.
const EACH: &str = "\
0|Some(false)
1|Some(true)
2|Some(false)
3|Some(true)
4|None";

struct Each;

impl Answers for Each {
    fn answer(alloc: Global, asked: &str) -> Result<String, Fail> {
        let history = history(alloc)?;
        debug_of(alloc, &is_for_first(&history, number::<u8>(asked, 0)?))
    }
}

fn is_for_first(history: &[Entry], n: u8) -> Option<bool> {
    let entry = history.get(n as usize)?;
    Some(is_command_for(entry, 0))
}

#[test]
fn commands_of_an_interface_are_known(rt: HostRuntime) -> Result<(), Fail> {
    rows_end_so::<Each>(rt.alloc(), EACH)
}

/// A list of entries, which stands for itself.
#[derive(Drop)]
struct Listed {
    entries: Vec<Entry>,
}

impl Stands for Listed {
    type Basis = ();

    ghost list = { λ l. l.entries.items };

    ghost basis = { λ l. tt };

    fn count(&self) -> u64 {
        self.entries.len() as u64
    }

    fn lend<L: Ledger>(&self, n: u64, steps: &mut Steps<L>) -> &Entry {
        steps.tick();
        &self.entries[n as usize]
    }
}

/// A place and a number of commands for interface 0: how many there are from the place on, and how many entries from there hold the
/// first so many.
const PLACES: &str = "\
0 0|(2, Some(0))
0 1|(2, Some(2))
0 2|(2, Some(4))
0 3|(2, None)
1 2|(2, Some(3))
2 1|(1, Some(2))
2 2|(1, None)
4 0|(0, Some(0))
4 1|(0, None)
9 0|(0, Some(0))
9 1|(0, None)";

struct Places;

impl Answers for Places {
    fn answer(alloc: Global, asked: &str) -> Result<String, Fail> {
        let history = Listed {
            entries: history(alloc)?,
        };
        debug_of(
            alloc,
            &place(&history, number(asked, 0)?, number(asked, 1)?),
        )
    }
}

fn place(history: &Listed, from: u64, commands: u64) -> (u64, Option<u64>) {
    (
        commands_for(history, from, 0),
        place_after(history, from, 0, commands),
    )
}

#[test]
fn commands_of_an_interface_are_found_in_their_order(rt: HostRuntime) -> Result<(), Fail> {
    rows_end_so::<Places>(rt.alloc(), PLACES)
}
