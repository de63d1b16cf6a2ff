// A hall over a site that is read from text.
ghost use Rattle.std.specs.Prelude.{◌≡◌, []};

use cts_base::Bytes;
use cts_def::{Ident, Time};
use cts_samples::site_of;
use cts_table::Hall;
use std::alloc::Global;
use std::sync::Arc;
use std::test::Fail;

const DEFINITIONS: &str = "\
TELEMETRY T A BIG_ENDIAN;APPEND_ID_ITEM K 8 UINT 1;APPEND_ITEM V 16 UINT;\
LIMITS DEFAULT 1 ENABLED 0 10 100 200;LIMITS NIGHT 1 ENABLED 0 10 2000 3000 20 30;UNITS Counts C;\
APPEND_ITEM W 8 INT;APPEND_ITEM X 0 BLOCK;\
TELEMETRY T B BIG_ENDIAN;APPEND_ID_ITEM K 8 UINT 2;\
COMMAND T GO BIG_ENDIAN;APPEND_PARAMETER N 8 UINT 0 9 1;\
COMMAND U GO BIG_ENDIAN;APPEND_PARAMETER N 8 UINT 0 9 1;\
COMMAND V GO BIG_ENDIAN;APPEND_PARAMETER N 8 UINT 0 9 1;\
TELEMETRY U A BIG_ENDIAN;APPEND_ID_ITEM K 8 UINT 1";

const SITE: &str = "INTERFACE I tcpip_server_interface.rb 1 1 nil nil;TARGET T;\
INTERFACE J tcpip_server_interface.rb 2 2 nil nil;TARGET U";

const NOW: Time = Time {
    seconds: 0,
    micros: 0,
};

/// A hall without entries.
pub fn new_hall(alloc: Global) -> Result<Hall, Fail> {
    let site = Arc::new(alloc, site_of(alloc, DEFINITIONS, SITE)?)?;
    Ok(Hall::new(alloc, site)?)
}

// The first interface is connected, where the hall has room for it and no entry yet.
fn connect(hall: &mut Hall) -> bool
    requires empty { hall.old.entries ≡ [] }
{
    if hall.site().interfaces.as_slice().is_empty() || hall.room(1, 0).is_err() {
        return false;
    }
    hall.opened(0, NOW);
    true
}

// The first interface has received a packet A, which was stored before or not, where it is connected and the hall has room for it.
fn receive(hall: &mut Hall, stored: bool, bytes: Bytes) -> bool {
    if hall.site().definitions.telemetry.as_slice().is_empty()
        || hall.site().interfaces.as_slice().is_empty()
        || !hall.connected(0)
        || hall.room(1, bytes.as_slice().len() as u64).is_err()
    {
        return false;
    }
    hall.packet(0, NOW, Ident::Known(0), stored, bytes);
    true
}

/// A hall with room for so many entries, whose first interface is connected and has received one packet A.
pub fn hall_of(alloc: Global, entries: u64) -> Result<Hall, Fail> {
    received(alloc, entries, false)
}

/// The same, where that packet was stored before.
pub fn stored_hall(alloc: Global) -> Result<Hall, Fail> {
    received(alloc, 100, true)
}

fn received(alloc: Global, entries: u64, stored: bool) -> Result<Hall, Fail> {
    let bytes = Bytes::copy(alloc, b"\x01\x05\x06\xff\x0a")?;
    let site = Arc::new(alloc, site_of(alloc, DEFINITIONS, SITE)?)?;
    let mut hall = Hall::with_limits(alloc, site, entries.min(100), 100)?;
    if connect(&mut hall) && receive(&mut hall, stored, bytes) {
        Ok(hall)
    } else {
        Err(Fail::new("not received"))
    }
}
