// Hubs: what a router of one site puts, as the bytes of an interface of another.
use crate::instrument::INSTRUMENT_DEFINITIONS;
use crate::routers::ROUTED_SITE;
use crate::shelves::{put, stocked};
use crate::table::{ended_without_faults, hold_bytes, rows_told};
use cts_outside::MemFiles;
use cts_preid::Preidentified;
use cts_proto::Shelf;
use cts_rows::{Answers, bytes_by_number, cut};
use std::alloc::Global;
use std::test::Fail;

/// Of a hub: the site below, after `~` the script, each with `;` for a line feed, and after `@` the words: how it ends, where the usage line is told by
/// its first words. The definitions and the site above are those of the instrument.
struct Hubs;

impl Answers for Hubs {
    fn answer(alloc: Global, asked: &str) -> Result<String, Fail> {
        let (files, words) = cut(asked, '@')?;
        let (below, script) = cut(files, '~')?;
        let mut files = files_of(alloc, below, script)?;
        let told = told_of(alloc, words, &mut files)?;
        Ok(told.split(" DEFS").next().unwrap_or("").to_string(alloc)?)
    }
}

/// The definitions, both sites and the script, by the names `d`, `s`, `b` and `c`.
fn files_of(alloc: Global, below: &str, script: &str) -> Result<MemFiles, Fail> {
    let mut held = Vec::new(alloc);
    hold_bytes(
        alloc,
        &mut held,
        "d",
        bytes_by_number(alloc, INSTRUMENT_DEFINITIONS)?,
    )?;
    hold_bytes(alloc, &mut held, "s", bytes_by_number(alloc, ROUTED_SITE)?)?;
    hold_bytes(alloc, &mut held, "b", bytes_by_number(alloc, below)?)?;
    hold_bytes(alloc, &mut held, "c", bytes_by_number(alloc, script)?)?;
    Ok(MemFiles::new(held, Vec::new(alloc)))
}

/// How a hub of these words ends.
fn told_of(alloc: Global, words: &str, files: &mut MemFiles) -> Result<String, Fail> {
    let words = format!(in alloc; "hub {words}")?;
    let mut shelf = with_three(alloc)?;
    ended_without_faults(alloc, words.as_str(), &mut shelf, files)
}

/// A shelf with a box of PREIDENTIFIED for each slot of the router, and for the interface below.
fn with_three(alloc: Global) -> Result<Shelf, Fail> {
    let mut shelf = stocked(alloc)?;
    put(&mut shelf, Box::new(alloc, Preidentified::blank(alloc))?)?;
    Ok(shelf)
}

const HUBS: &str =
    r#"the demo|INTERFACE P tcpip_client_interface.rb localhost 2950 2950 nil nil PREIDENTIFIED;TARGET INST~TIME 100 250000;OPEN INST_INT;OPEN AUX_INT;OPEN OUT/0;BYTES INST_INT 000601;BYTES AUX_INT 48490A;BYTES INST_INT 80000100;CALL 0 '{"jsonrpc":"2.0","method":"set_limits_set","params":["TVAC"],"id":1}';BYTES INST_INT 0601900001;CALL 0 '{"jsonrpc":"2.0","method":"get_limits_set","id":2}';CALL 0 '{"jsonrpc":"2.0","method":"tlm_with_units","params":["INST HS TEMP1"],"id":3}';CALL 0 '{"jsonrpc":"2.0","method":"cmd","params":["INST COLLECT with DURATION 10"],"id":4}';WRITE INST_INT 1;DRAIN OUT/0 5;CLOSE INST_INT PEER@d s c b OUT/0 P 7|Ok 0 0.000000 P OPENED;1 100.250000 P PACKET INST HS 01800001;EVENT INST HS TEMP1 STALE GREEN;2 100.250000 P PACKET INST HS 01900001;3 0.000000 P CLOSED PEER held 0 0 0 0 skipped 0 empty 0 unposted 0 unsent 0;END 4;
the demo without its target|INTERFACE P tcpip_client_interface.rb localhost 2950 2950 nil nil PREIDENTIFIED;TARGET AUX~TIME 100 250000;OPEN INST_INT;OPEN AUX_INT;OPEN OUT/0;BYTES INST_INT 000601;BYTES AUX_INT 48490A;BYTES INST_INT 80000100;CALL 0 '{"jsonrpc":"2.0","method":"set_limits_set","params":["TVAC"],"id":1}';BYTES INST_INT 0601900001;CALL 0 '{"jsonrpc":"2.0","method":"get_limits_set","id":2}';CALL 0 '{"jsonrpc":"2.0","method":"tlm_with_units","params":["INST HS TEMP1"],"id":3}';CALL 0 '{"jsonrpc":"2.0","method":"cmd","params":["INST COLLECT with DURATION 10"],"id":4}';WRITE INST_INT 1;DRAIN OUT/0 5;CLOSE INST_INT PEER@d s c b OUT/0 P 7|HubRefused hub refused: Target;
another protocol|INTERFACE P tcpip_client_interface.rb localhost 2950 2950 nil nil LENGTH 0 16 0 1;TARGET INST~OPEN OUT/0@d s c b OUT/0 P 7|HubRefused hub refused: Chain;
no connection|INTERFACE P tcpip_client_interface.rb localhost 2950 2950 nil nil PREIDENTIFIED;TARGET INST~OPEN INST_INT@d s c b OUT/1 P 1|Ok 0 0.000000 P OPENED;1 0.000000 P CLOSED PEER held 0 0 0 0 skipped 0 empty 0 unposted 0 unsent 0;END 2;
the last connection counts|INTERFACE P tcpip_client_interface.rb localhost 2950 2950 nil nil PREIDENTIFIED;TARGET INST~OPEN INST_INT;OPEN OUT/0;BYTES INST_INT 000601800001;DRAIN OUT/0 1;CLOSE OUT/0 PEER;OPEN OUT/0;BYTES INST_INT 000601900001;DRAIN OUT/0 1;CLOSE OUT/0 PEER@d s c b OUT/0 P 65536|Ok 0 0.000000 P OPENED;1 0.000000 P PACKET INST HS 01900001;EVENT INST HS TEMP1 STALE GREEN;2 0.000000 P CLOSED PEER held 0 0 0 0 skipped 0 empty 0 unposted 0 unsent 0;END 3;
no slot|INTERFACE P tcpip_client_interface.rb localhost 2950 2950 nil nil PREIDENTIFIED;TARGET INST~x@d s c b INST_INT P 7|Usage usage: check
an event above is not enabled|INTERFACE P tcpip_client_interface.rb localhost 2950 2950 nil nil PREIDENTIFIED;TARGET INST~CLOSE OUT/0 PEER@d s c b OUT/0 P 7|ScriptRefused refused: c line 1: NotEnabled;
an event above is not enabled after others|INTERFACE P tcpip_client_interface.rb localhost 2950 2950 nil nil PREIDENTIFIED;TARGET INST~OPEN OUT/0;OPEN OUT/0@d s c b OUT/0 P 7|ScriptRefused refused: c line 2: NotEnabled;
a word too few|-~-@d s c b OUT/0 P|Usage usage: check
definitions come first|x~-@n n n n INST_INT Q 0|Absent absent: n;
the site above comes next|x~-@d n n n INST_INT Q 0|Absent absent: n;
the site below comes next|x~-@d s n b INST_INT Q 0|ConfigRefused refused: b line 1: UnknownKeyword;
the site below is absent|-~-@d s n n INST_INT Q 0|Absent absent: n;
no interface|INTERFACE P tcpip_client_interface.rb localhost 2950 2950 nil nil PREIDENTIFIED;TARGET AUX~x@d s n b OUT/0 Q 7|Usage usage: check
no size|INTERFACE P tcpip_client_interface.rb localhost 2950 2950 nil nil PREIDENTIFIED;TARGET AUX~x@d s n b OUT/0 P 0|Usage usage: check
a size above all|INTERFACE P tcpip_client_interface.rb localhost 2950 2950 nil nil PREIDENTIFIED;TARGET AUX~x@d s n b OUT/0 P 65537|Usage usage: check
a size with a leading zero|INTERFACE P tcpip_client_interface.rb localhost 2950 2950 nil nil PREIDENTIFIED;TARGET AUX~x@d s n b OUT/0 P 07|Usage usage: check
the tie comes before the shelf|INTERFACE P tcpip_client_interface.rb localhost 2950 2950 nil nil PREIDENTIFIED;TARGET AUX;ROUTER R tcpip_server_interface.rb 2 2 nil nil PREIDENTIFIED~x@d s n b OUT/0 P 7|HubRefused hub refused: Target;
the chain comes before the targets|INTERFACE P tcpip_client_interface.rb localhost 2950 2950 nil nil TERMINATED 0x0A 0x0A;TARGET AUX~x@d s n b OUT/0 P 7|HubRefused hub refused: Chain;
the boxes of both sites are counted, before the script|INTERFACE P tcpip_client_interface.rb localhost 2950 2950 nil nil PREIDENTIFIED;TARGET INST;ROUTER R tcpip_server_interface.rb 2 2 nil nil PREIDENTIFIED~x@d s n b OUT/0 P 7|ShelfEmpty shelf empty: PREIDENTIFIED needed 5 stocked 3;
the script comes last|INTERFACE P tcpip_client_interface.rb localhost 2950 2950 nil nil PREIDENTIFIED;TARGET INST~x@d s n b OUT/0 P 7|Absent absent: n;
a script that is refused|INTERFACE P tcpip_client_interface.rb localhost 2950 2950 nil nil PREIDENTIFIED;TARGET INST~x@d s c b OUT/0 P 7|ScriptRefused refused: c line 1: UnknownKeyword;"#;

#[test]
fn hubs_hand_on(rt: HostRuntime) -> Result<(), Fail> {
    rows_told::<Hubs>(rt.alloc(), HUBS)
}
