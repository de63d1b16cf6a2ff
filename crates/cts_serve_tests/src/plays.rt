// Logs that are played.
use crate::demo::DEFINITIONS;
use crate::dumps::log_of;
use crate::faults::numbers_of;
use crate::table::{ended_stocked, hold_bytes, rows_told};
use cts_outside::{MemFiles, MemSink, MemVault};
use cts_rows::{Answers, bytes_by_number, cut, number, part};
use std::alloc::Global;
use std::test::Fail;

const SITE: &str = "\
INTERFACE INST_INT tcpip_client_interface.rb localhost 8080 8080 10.0 nil LENGTH 0 16 0 1
TARGET INST
INTERFACE AUX_INT tcpip_client_interface.rb localhost 8081 8081 10.0 nil TERMINATED 0x0A 0x0A true
TARGET AUX
";

/// Of a log: its mark and digits, how many of its bytes there are, its entries, the read and the put that fail, and after `@` the words: how
/// its playback ends. The definitions are those of the demo.
struct Plays;

impl Answers for Plays {
    fn answer(alloc: Global, asked: &str) -> Result<String, Fail> {
        let (file, words) = cut(asked, '@')?;
        played(alloc, words, file, log_of(alloc, file)?)
    }
}

// How a playback of this log ends.
fn played(alloc: Global, words: &str, file: &str, log: Vec<u8>) -> Result<String, Fail> {
    let mut held = Vec::new(alloc);
    hold_bytes(alloc, &mut held, "d", bytes_by_number(alloc, DEFINITIONS)?)?;
    hold_bytes(alloc, &mut held, "s", SITE.as_bytes().to_vec(alloc)?)?;
    hold_bytes(alloc, &mut held, "l", log)?;
    let mut files = MemFiles::new(held, numbers_of(alloc, part(file, 3))?);
    let mut sink = MemSink::new(alloc, numbers_of(alloc, part(file, 4))?);
    let mut vault = MemVault::new(alloc, Vec::new(alloc));
    ended_stocked(alloc, words, &mut files, &mut sink, &mut vault)
}

const PLAYED: &str = "\
the demo's log|COSMOS2_TLM_d41d8cd98f00b204e9800998ecf8427e 999 000000640003d09003415558044c494e45000000024849000000640003d09004494e53540248530000000401800001000000640003d09004494e53540248530000000401900001 - -@play d s l|Ok 0 0.000000 PLAY OPENED;1 100.250000 PLAY PACKET AUX LINE 4849;2 100.250000 PLAY PACKET INST HS 01800001;EVENT INST HS TEMP1 STALE GREEN;3 100.250000 PLAY PACKET INST HS 01900001;4 100.250000 PLAY CLOSED PEER held 0 0 0 0 skipped 0 empty 0 unposted 0 unsent 0;END 5;
a head alone|COSMOS2_TLM_d41d8cd98f00b204e9800998ecf8427e 128 00 - -@play d s l|Ok 0 0.000000 PLAY OPENED;1 0.000000 PLAY CLOSED PEER held 0 0 0 0 skipped 0 empty 0 unposted 0 unsent 0;END 2;
a log of commands|COSMOS2_CMD_d41d8cd98f00b204e9800998ecf8427e 128 00 - -@play d s l|LogRefused log refused at 0;
a head that is cut|COSMOS2_TLM_d41d8cd98f00b204e9800998ecf8427e 127 00 - -@play d s l|LogRefused log refused at 0;
an entry that is cut|COSMOS2_TLM_d41d8cd98f00b204e9800998ecf8427e 174 000000640003d09003415558044c494e45000000024849000000640003d09004494e53540248530000000401800001 - -@play d s l|LogRefused 0 0.000000 PLAY OPENED;1 100.250000 PLAY PACKET AUX LINE 4849;log refused at 151;
a stored packet and an unknown one|COSMOS4_TLM_d41d8cd98f00b204e9800998ecf8427e 999 80000000640003d09004494e5354024853000000040180000100000000640003d09007554e4b4e4f574e07554e4b4e4f574e0000000107 - -@play d s l|Ok 0 0.000000 PLAY OPENED;1 100.250000 PLAY STORED INST HS 01800001;2 100.250000 PLAY PACKET UNKNOWN UNKNOWN 07;3 100.250000 PLAY CLOSED PEER held 0 0 0 0 skipped 0 empty 0 unposted 0 unsent 0;END 4;
microseconds of a second or more|COSMOS2_TLM_d41d8cd98f00b204e9800998ecf8427e 999 00000064000f424003415558044c494e45000000024849 - -@play d s l|Ok 0 0.000000 PLAY OPENED;1 100.1000000 PLAY PACKET AUX LINE 4849;2 0.000000 PLAY CLOSED PEER held 0 0 0 0 skipped 0 empty 0 unposted 0 unsent 0;END 3;
stored packets among others|COSMOS4_TLM_d41d8cd98f00b204e9800998ecf8427e 999 80000000640003d09004494e5354024853000000040180000100000000640003d09004494e5354024853000000040180000180000000640003d09004494e5354024853000000040190000100000000640003d09004494e53540248530000000401900001 - -@play d s l|Ok 0 0.000000 PLAY OPENED;1 100.250000 PLAY STORED INST HS 01800001;2 100.250000 PLAY PACKET INST HS 01800001;EVENT INST HS TEMP1 STALE GREEN;3 100.250000 PLAY STORED INST HS 01900001;4 100.250000 PLAY PACKET INST HS 01900001;5 100.250000 PLAY CLOSED PEER held 0 0 0 0 skipped 0 empty 0 unposted 0 unsent 0;END 6;
no log|COSMOS2_TLM_d41d8cd98f00b204e9800998ecf8427e 128 00 - -@play d s x|Absent absent: x;
a put that fails|COSMOS2_TLM_d41d8cd98f00b204e9800998ecf8427e 128 00 - 0@play d s l|WriteFault ";

#[test]
fn logs_are_played(rt: HostRuntime) -> Result<(), Fail> {
    rows_told::<Plays>(rt.alloc(), PLAYED)
}

/// The same of a log whose last entry ends with so many zeros.
struct Long;

impl Answers for Long {
    fn answer(alloc: Global, asked: &str) -> Result<String, Fail> {
        let (file, words) = cut(asked, '@')?;
        let zeros = vec![in alloc; 0; number(file, 5)?]?;
        let mut log = log_of(alloc, file)?;
        log.extend_from_slice(&zeros)?;
        played(alloc, words, file, log)
    }
}

// The last entry has 1,048,577 bytes with its head: the connection ends with the first 65,536 of them.
const LONG: &str = "\
a last frame that is too long|COSMOS2_TLM_d41d8cd98f00b204e9800998ecf8427e 999 000000640003d09003415558044c494e45000000024849000000640003d09003415558044c494e45000fffec - - 1048556@play d s l|Ok 0 0.000000 PLAY OPENED;1 100.250000 PLAY PACKET AUX LINE 4849;2 0.000000 PLAY CLOSED BAD 1 TOOLONG held 65536 0 0 0 skipped 0 empty 0 unposted 0 unsent 0;END 3;
and an entry that is cut after it|COSMOS2_TLM_d41d8cd98f00b204e9800998ecf8427e 999 000000640003d09003415558044c494e45000000024849000000640003d09003415558044c494e45000fffec - - 1048557@play d s l|LogRefused 0 0.000000 PLAY OPENED;1 100.250000 PLAY PACKET AUX LINE 4849;2 0.000000 PLAY CLOSED BAD 1 TOOLONG held 65536 0 0 0 skipped 0 empty 0 unposted 0 unsent 0;log refused at 1048728;";

#[test]
fn a_frame_that_is_too_long_ends_the_playback(rt: HostRuntime) -> Result<(), Fail> {
    rows_told::<Long>(rt.alloc(), LONG)
}
