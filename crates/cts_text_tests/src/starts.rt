// What no clause says: how a packet that was read begins.
use cts_def::Definitions;
use cts_rows::{Answers, debug_of, rows_end_so};
use cts_samples::{definitions_of, only_packet};
use std::alloc::Global;
use std::test::Fail;

/// The place, id and sign of the only item of a packet.
fn id_of(alloc: Global, definitions: &Definitions) -> Result<String, Fail> {
    match only_packet(definitions)?.items.as_slice() {
        [item] => debug_of(alloc, &item.id_field()),
        _ => Err(Fail::new("another count of items")),
    }
}

/// How a packet begins: its id fields, and its length.
fn start_of(alloc: Global, definitions: &Definitions) -> Result<String, Fail> {
    let packet = only_packet(definitions)?;
    debug_of(alloc, &packet.start(alloc)?)
}

const ITEMS: &str = "\
TELEMETRY T P BIG_ENDIAN;ID_ITEM ID 8 16 INT -2 '' LITTLE_ENDIAN|Some((Place { offset: 8, bits: 16, order: Little }, -2, true))";

struct Items;

impl Answers for Items {
    fn answer(alloc: Global, asked: &str) -> Result<String, Fail> {
        let definitions = definitions_of(alloc, asked)?;
        id_of(alloc, &definitions)
    }
}

#[test]
fn an_item_has_its_id_field(rt: HostRuntime) -> Result<(), Fail> {
    rows_end_so::<Items>(rt.alloc(), ITEMS)
}

const STARTS: &str = "\
TELEMETRY T P BIG_ENDIAN;ID_ITEM ID 8 16 INT -2 '' LITTLE_ENDIAN|Start { ids: List { items: [(Place { offset: 8, bits: 16, order: Little }, -2, true)] }, length: 3 }";

struct Starts;

impl Answers for Starts {
    fn answer(alloc: Global, asked: &str) -> Result<String, Fail> {
        let definitions = definitions_of(alloc, asked)?;
        start_of(alloc, &definitions)
    }
}

#[test]
fn a_start_has_the_id_fields(rt: HostRuntime) -> Result<(), Fail> {
    rows_end_so::<Starts>(rt.alloc(), STARTS)
}
