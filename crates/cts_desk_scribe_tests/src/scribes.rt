// Scribes over histories and vaults in memory.
ghost use Rattle.cts_scribe.specs.Vaults.{AreBlank};

use crate::adding::history;
use crate::logs::{counted, of_log, of_vault};
use crate::narrow::Narrow;
use crate::scribing::{cancel_scribe, run_beside, run_scribe};
use crate::words::entries_of;
use cts_def::Site;
use cts_outside::{LogKind, MemVault, Vault};
use cts_rows::{asked_and_wanted, digits_of, field, number, numbers, same};
use cts_samples::site_of;
use std::alloc::Global;
use std::sync::{Arc, Wait};
use std::test::Fail;

const DEFINITIONS: &str = "\
TELEMETRY T A BIG_ENDIAN;APPEND_ID_ITEM K 8 UINT 1;\
TELEMETRY U B BIG_ENDIAN;APPEND_ID_ITEM K 8 UINT 2;\
COMMAND T GO BIG_ENDIAN;APPEND_PARAMETER N 8 UINT 0 9 1;\
COMMAND U GO BIG_ENDIAN;APPEND_PARAMETER N 8 UINT 0 9 1";

/// The interface I of T, which is logged, J of U, which is not, and a router.
const SITE: &str = "\
INTERFACE I tcpip_server_interface.rb 1 1 nil nil;TARGET T;\
INTERFACE J tcpip_server_interface.rb 2 2 nil nil;TARGET U;DONT_LOG;\
ROUTER R tcpip_server_interface.rb 3 3 nil nil;ROUTE I";

/// The entries before the others end, and the number of the vault's call that fails; and why the scribe ended, its cursor and its entries, and what is told of each
/// log. The heads are the calls 0 to 3, each an append and its sync.
const ROWS: &str = "\
||(Drained, 8) E T 128/128 end C 128/128 end
open:0 packet:0:0:0105||(Drained, 11) E T 146/146 T A 0105;end C 128/128 end
open:0 open:1 packet:0:0:01 packet:1:1:02 packet:0:x:09 packet:1:x:08 command:24:0:01 command:24:1:02 inject:24:0:0105 inject:24:1:0207 set:24:DEFAULT close:0||(Drained, 21) E T 174/174 T A 01;UNKNOWN UNKNOWN 09;end C 146/146 T GO 01;end
open:0 packet:0:0:01 command:24:0:03 packet:0:0:02 command:24:0:04||(Drained, 14) E T 162/162 T A 01;T A 02;end C 164/164 T GO 03;T GO 04;end
open:0 packet:0:1:02 packet:0:0:||(Drained, 12) E T 161/161 U B 02;T A ;end C 128/128 end
open:0 packet:0:0:01 stop:31 packet:0:0:02||(Drained, 13) E T 162/162 T A 01;T A 02;end C 128/128 end
stop:31|0|(VaultFailed, 0) E T 0/0 cut C 0/0 cut
open:0 packet:0:0:0105 command:24:0:03|0|(VaultFailed, 0) SE T 0/0 cut C 0/0 cut
open:0 packet:0:0:0105 command:24:0:03|1|(VaultFailed, 0) SE T 128/0 end C 0/0 cut
open:0 packet:0:0:0105 command:24:0:03|2|(VaultFailed, 0) SE T 128/128 end C 0/0 cut
open:0 packet:0:0:0105 command:24:0:03|3|(VaultFailed, 0) SE T 128/128 end C 128/0 end
open:0 packet:0:0:0105 command:24:0:03|4|(VaultFailed, 12) SE T 128/128 end C 128/128 end
open:0 packet:0:0:0105 command:24:0:03|5|(VaultFailed, 12) SE T 146/128 T A 0105;end C 128/128 end
open:0 packet:0:0:0105 command:24:0:03|6|(VaultFailed, 12) SE T 146/146 T A 0105;end C 128/128 end
open:0 packet:0:0:0105 command:24:0:03|7|(VaultFailed, 12) SE T 146/146 T A 0105;end C 146/128 T GO 03;end
open:0 packet:0:0:0105 command:24:0:03|8|(Drained, 12) E T 146/146 T A 0105;end C 146/146 T GO 03;end";

/// What a scribe leaves of a history that has these entries before all others have ended, over a site with these texts.
pub fn logged<R: Wait, V: Vault>(
    rt: &R,
    alloc: Global,
    texts: (&str, &str),
    words: &str,
    vault: &mut V,
) -> Result<String, Fail>
    requires blank { AreBlank (V.seen vault.old).told }
{
    let site = Arc::new(alloc, site_of(alloc, texts.0, texts.1)?)?;
    logged_at(rt, alloc, &site, words, vault)
}

fn logged_at<R: Wait, V: Vault>(
    rt: &R,
    alloc: Global,
    site: &Arc<Site>,
    words: &str,
    vault: &mut V,
) -> Result<String, Fail>
    requires blank { AreBlank (V.seen vault.old).told }
{
    let hall = history(alloc, site.clone()?, words, 0)?;
    run_scribe(rt, alloc, site, hall, vault)
}

// What was told of a scribe, and what is told of its vault.
fn with_logs(alloc: Global, told: &str, vault: &MemVault) -> Result<String, Fail> {
    Ok(format!(in alloc; "{told} {}", of_vault(alloc, vault)?)?)
}

fn told<R: Wait>(rt: &R, alloc: Global, row: &str) -> Result<String, Fail> {
    let mut vault = MemVault::new(alloc, numbers(alloc, field(row, 1))?);
    let told = logged(rt, alloc, (DEFINITIONS, SITE), field(row, 0), &mut vault)?;
    with_logs(alloc, &told, &vault)
}

fn holds<R: Wait>(rt: &R, alloc: Global, row: &str) -> Result<(), Fail> {
    let (asked, wanted) = asked_and_wanted(row)?;
    same(&told(rt, alloc, asked)?, wanted, asked)
}

#[test]
fn scribes_leave_this(rt: HostRuntime) -> Result<(), Fail> {
    for row in ROWS.split('\n') {
        holds(&rt, rt.alloc(), row)?;
    }
    Ok(())
}

/// How many packets there are, of which no more than 256 are followed in one look, and the number of the vault's call that fails; and of the log the lines.
const LONG: &str = "\
600||(Drained, 610) E T 10328/10328 T A 01 600
600|6|(VaultFailed, 512) SE T 4463/4463 T A 01 255";

fn long_holds<R: Wait>(rt: &R, alloc: Global, row: &str) -> Result<(), Fail> {
    let (asked, wanted) = asked_and_wanted(row)?;
    let packets = "packet:0:0:01 ".repeat(alloc, number(field(asked, 0), 0)?)?;
    let all = format!(in alloc; "open:0 {packets}|{}", field(asked, 1))?;
    let told = told(rt, alloc, &all)?;
    same(&counted(alloc, &told)?, wanted, asked)
}

#[test]
fn a_long_history_is_followed_look_by_look(rt: HostRuntime) -> Result<(), Fail> {
    for row in LONG.split('\n') {
        long_holds(&rt, rt.alloc(), row)?;
    }
    Ok(())
}

/// For how many bytes of both logs together there is room, where two packets and a command are to be logged; and what is left.
const ROOMS: &str = "\
0|(VaultFailed, 0) SE T 0/0 cut C 0/0 cut
1|(VaultFailed, 0) SE T 1/0 cut C 0/0 cut
127|(VaultFailed, 0) SE T 127/0 cut C 0/0 cut
128|(VaultFailed, 0) SE T 128/0 end C 0/0 cut
129|(VaultFailed, 0) SE T 128/0 end C 1/0 cut
255|(VaultFailed, 0) SE T 128/0 end C 127/0 cut
256|(VaultFailed, 13) SE T 128/0 end C 128/0 end
257|(VaultFailed, 13) SE T 129/0 cut C 128/0 end
276|(VaultFailed, 13) SE T 148/0 T A 0105;cut C 128/0 end
277|(VaultFailed, 13) SE T 149/0 T A 0105;cut C 128/0 end
278|(VaultFailed, 13) SE T 150/0 T A 0105;cut C 128/0 end
279|(VaultFailed, 13) SE T 151/0 T A 0105;cut C 128/0 end
290|(VaultFailed, 13) SE T 162/0 T A 0105;cut C 128/0 end
300|(VaultFailed, 13) SE T 164/0 T A 0105;T A 0207;end C 136/0 cut
310|(Drained, 13) E T 164/0 T A 0105;T A 0207;end C 146/0 T GO 03;end";

fn at_room<R: Wait>(rt: &R, alloc: Global, room: usize) -> Result<String, Fail> {
    let words = "open:0 packet:0:0:0105 command:24:0:03 packet:0:0:0207";
    let mut vault = Narrow::new(alloc, room);
    let told = logged(rt, alloc, (DEFINITIONS, SITE), words, &mut vault)?;
    with_both(alloc, &told, &vault)
}

fn with_both(alloc: Global, told: &str, vault: &Narrow) -> Result<String, Fail> {
    let tlm = of_log(alloc, &vault.tlm, 0)?;
    let cmd = of_log(alloc, &vault.cmd, 0)?;
    Ok(format!(in alloc; "{told} T {tlm} C {cmd}")?)
}

fn room_holds<R: Wait>(rt: &R, alloc: Global, row: &str) -> Result<(), Fail> {
    let (asked, wanted) = asked_and_wanted(row)?;
    same(&at_room(rt, alloc, number(asked, 0)?)?, wanted, asked)
}

#[test]
fn what_is_left_of_a_log_is_read(rt: HostRuntime) -> Result<(), Fail> {
    for row in ROOMS.split('\n') {
        room_holds(&rt, rt.alloc(), row)?;
    }
    Ok(())
}

/// The entries of the first interface that come at the vault's appends, up to a packet at each; and after the cursor how many entries stand at the end.
const BESIDE: &str = "\
open:0 packet:0:0:01 packet:0:0:02 packet:0:0:03 packet:0:0:04 close:0 end:0|(Drained, 14, 15) E T 196/196 T A 01;T A 02;T A 03;T A 04;end C 128/128 end";

fn beside_holds<R: Wait>(rt: &R, alloc: Global, row: &str) -> Result<(), Fail> {
    let (asked, wanted) = asked_and_wanted(row)?;
    same(&told_beside(rt, alloc, asked)?, wanted, asked)
}

fn told_beside<R: Wait>(rt: &R, alloc: Global, asked: &str) -> Result<String, Fail> {
    let site = Arc::new(alloc, site_of(alloc, DEFINITIONS, SITE)?)?;
    let (told, vault) = run_beside_at(rt, alloc, &site, asked)?;
    with_logs(alloc, &told, &vault)
}

fn run_beside_at<R: Wait>(
    rt: &R,
    alloc: Global,
    site: &Arc<Site>,
    asked: &str,
) -> Result<(String, MemVault), Fail> {
    let mut entries = entries_of(alloc, asked)?;
    entries.reverse();
    let hall = history(alloc, site.clone()?, "", 1)?;
    run_beside(rt, alloc, site, hall, entries)
}

#[test]
fn entries_come_between_two_looks(rt: HostRuntime) -> Result<(), Fail> {
    for row in BESIDE.split('\n') {
        beside_holds(&rt, rt.alloc(), row)?;
    }
    Ok(())
}

/// The entries before a scribe is cancelled; and its own entries.
const CANCELS: &str = "\
|(Cancelled, 0) SE
stop:31|(Cancelled, 0) E";

fn cancel_holds<R: Wait>(rt: &R, alloc: Global, row: &str) -> Result<(), Fail> {
    let (asked, wanted) = asked_and_wanted(row)?;
    let site = Arc::new(alloc, site_of(alloc, DEFINITIONS, SITE)?)?;
    let hall = history(alloc, site, asked, 0)?;
    same(&cancel_scribe(rt, alloc, hall)?, wanted, asked)
}

#[test]
fn a_scribe_is_cancelled(rt: HostRuntime) -> Result<(), Fail> {
    for row in CANCELS.split('\n') {
        cancel_holds(&rt, rt.alloc(), row)?;
    }
    Ok(())
}

const DEMO_DEFINITIONS: &str = "\
TELEMETRY INST HS BIG_ENDIAN;APPEND_ID_ITEM PKTID 8 UINT 1;APPEND_ITEM TEMP1 16 UINT;APPEND_ITEM MODE 8 UINT;\
TELEMETRY AUX LINE BIG_ENDIAN;APPEND_ITEM TEXT 0 STRING;\
COMMAND INST COLLECT BIG_ENDIAN;APPEND_ID_PARAMETER OPCODE 8 UINT 7 7 7;APPEND_PARAMETER DURATION 16 UINT 0 10 5";

const DEMO_SITE: &str = "\
INTERFACE INST_INT tcpip_client_interface.rb localhost 8080 8080 10.0 nil LENGTH 0 16 0 1 BIG_ENDIAN 2 nil nil true;TARGET INST;\
INTERFACE AUX_INT tcpip_client_interface.rb localhost 8081 8081 10.0 nil TERMINATED 0x0A 0x0A;TARGET AUX;\
ROUTER OUT tcpip_server_interface.rb 2950 2950 10.0 nil PREIDENTIFIED;ROUTE INST_INT";

/// The history of the demo.
const DEMO: &str = "\
open:0 open:1 open:16 packet:1:1:4849 packet:0:0:01800001 set:24:TVAC packet:0:0:01900001 command:24:0:07000a close:0";

/// What is told of its logs, and their bytes after the heads.
const DEMO_LOGS: &str = "\
(Drained, 19) E T 199/199 AUX LINE 4849;INST HS 01800001;INST HS 01900001;end C 156/156 INST COLLECT 07000a;end
000000640003d09003415558044c494e45000000024849000000640003d09004494e53540248530000000401800001000000640003d09004494e53540248530000000401900001
000000640003d09004494e535407434f4c4c4543540000000307000a";

#[test]
fn the_demo_is_logged(rt: HostRuntime) -> Result<(), Fail> {
    let texts = (DEMO_DEFINITIONS, DEMO_SITE);
    logs_are(&rt, rt.alloc(), texts, DEMO, DEMO_LOGS)
}

// What is told of the logs of this history over a site with these texts, and their bytes after the heads.
fn logs_are<R: Wait>(
    rt: &R,
    alloc: Global,
    texts: (&str, &str),
    words: &str,
    wanted: &str,
) -> Result<(), Fail> {
    let mut vault = MemVault::new(alloc, Vec::new(alloc));
    let told = logged(rt, alloc, texts, words, &mut vault)?;
    same(&with_bytes(alloc, &told, &vault)?, wanted, words)
}

/// A history with packets that were stored, of an interface that is logged and of one that is not.
const STORED: &str = "\
open:0 open:1 stored:0:0:0105 packet:0:0:0106 stored:1:1:02 stored:0:x:09 command:24:0:01 close:0";

/// What is told of its logs, and their bytes after the heads, in layout 4.
const STORED_LOGS: &str = "\
(Drained, 17) E T 196/196 T A 0105 STORED;T A 0106;UNKNOWN UNKNOWN 09 STORED;end C 147/147 T GO 01;end
80000000640003d0900154014100000002010500000000640003d0900154014100000002010680000000640003d09007554e4b4e4f574e07554e4b4e4f574e0000000109
00000000640003d090015402474f0000000101";

/// The same in layout 2.
const PLAIN_LOGS: &str = "\
(Drained, 17) E T 193/193 T A 0105;T A 0106;UNKNOWN UNKNOWN 09;end C 146/146 T GO 01;end
000000640003d09001540141000000020105000000640003d09001540141000000020106000000640003d09007554e4b4e4f574e07554e4b4e4f574e0000000109
000000640003d090015402474f0000000101";

#[test]
fn stored_packets_are_logged_in_the_layout_of_the_site(rt: HostRuntime) -> Result<(), Fail> {
    let alloc = rt.alloc();
    let site = format!(in alloc; "{SITE};LOG_LAYOUT 4")?;
    logs_are(
        &rt,
        alloc,
        (DEFINITIONS, site.as_str()),
        STORED,
        STORED_LOGS,
    )?;
    logs_are(&rt, alloc, (DEFINITIONS, SITE), STORED, PLAIN_LOGS)
}

// What was told of a scribe, what is told of its vault, and the bytes of both logs after their heads.
fn with_bytes(alloc: Global, told: &str, vault: &MemVault) -> Result<String, Fail> {
    let both = with_logs(alloc, told, vault)?;
    let tlm = after_head(alloc, vault.bytes(LogKind::Tlm))?;
    let cmd = after_head(alloc, vault.bytes(LogKind::Cmd))?;
    Ok(format!(in alloc; "{both}\n{tlm}\n{cmd}")?)
}

fn after_head(alloc: Global, log: &[u8]) -> Result<String, Fail> {
    digits_of(alloc, log.get(128..).unwrap_or(&[]))
}
