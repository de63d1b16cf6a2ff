// What replays leave in their logs.
use crate::commands::DEMO_SITE;
use crate::faults::numbers_of;
use crate::instrument::INSTRUMENT_DEFINITIONS;
use crate::table::{ended_stocked, files, rows_told};
use cts_outside::{LogKind, MemSink, MemVault};
use cts_rows::{Answers, digits_of};
use std::alloc::Global;
use std::test::Fail;

/// Of the put and the call of the vault that fail, a line of the last interface and a script: how many bytes the log of telemetry has,
/// how many of them are synced, and those after its head in hexadecimal digits; and then the same of the log of commands.
struct Kept;

impl Answers for Kept {
    fn answer(alloc: Global, asked: &str) -> Result<String, Fail> {
        let parts = asked.splitn(4, '|').collect::<Vec<&str>>(alloc)?;
        let [put, kept, line, script] = parts.as_slice() else {
            return Err(Fail::new("not four parts"));
        };
        let put = numbers_of(alloc, put)?;
        let mut vault = MemVault::new(alloc, numbers_of(alloc, kept)?);
        replayed(alloc, line, script, put, &mut vault)?;
        both_logs(alloc, &vault)
    }
}

/// What both logs of a vault have.
fn both_logs(alloc: Global, vault: &MemVault) -> Result<String, Fail> {
    let tlm = log_of(alloc, vault, LogKind::Tlm)?;
    let cmd = log_of(alloc, vault, LogKind::Cmd)?;
    Ok(format!(in alloc; "{tlm} {cmd}")?)
}

/// How a replay of a script ends over the instrument, whose last interface has a line more.
fn replayed(
    alloc: Global,
    line: &str,
    script: &str,
    failing_puts: Vec<u64>,
    vault: &mut MemVault,
) -> Result<String, Fail> {
    let site = format!(in alloc; "{DEMO_SITE};{line}")?;
    let mut files = files(
        alloc,
        INSTRUMENT_DEFINITIONS,
        site.as_str(),
        script,
        Vec::new(alloc),
    )?;
    let mut sink = MemSink::new(alloc, failing_puts);
    ended_stocked(alloc, "replay d s c", &mut files, &mut sink, vault)
}

fn log_of(alloc: Global, vault: &MemVault, kind: LogKind) -> Result<String, Fail> {
    let bytes = vault.bytes(kind);
    let synced = vault.synced(kind).len();
    let after = digits_of(alloc, bytes.get(128..).unwrap_or(&[]))?;
    Ok(format!(in alloc; "{} {synced} {after};", bytes.len())?)
}

// A line comes, and both entries are drained; then the interface is closed. The logs get their heads, what is drained and what is left,
// and are synced; then the number of entries is put.
const KEPT: &str = "\
the first head fails|-|0||OPEN AUX_INT;BYTES AUX_INT 48490A;DRAIN LOG 2;CLOSE AUX_INT PEER|0 0 ; 0 0 ;
the second head fails|-|1||OPEN AUX_INT;BYTES AUX_INT 48490A;DRAIN LOG 2;CLOSE AUX_INT PEER|128 0 ; 0 0 ;
a drain of telemetry fails|-|2||OPEN AUX_INT;BYTES AUX_INT 48490A;DRAIN LOG 2;CLOSE AUX_INT PEER|128 0 ; 128 0 ;
a drain of commands fails|-|3||OPEN AUX_INT;BYTES AUX_INT 48490A;DRAIN LOG 2;CLOSE AUX_INT PEER|151 0 000000000000000003415558044c494e45000000024849; 128 0 ;
the rest fails|-|4||OPEN AUX_INT;BYTES AUX_INT 48490A;DRAIN LOG 2;CLOSE AUX_INT PEER|151 0 000000000000000003415558044c494e45000000024849; 128 0 ;
the first sync fails|-|6||OPEN AUX_INT;BYTES AUX_INT 48490A;DRAIN LOG 2;CLOSE AUX_INT PEER|151 0 000000000000000003415558044c494e45000000024849; 128 0 ;
the second sync fails|-|7||OPEN AUX_INT;BYTES AUX_INT 48490A;DRAIN LOG 2;CLOSE AUX_INT PEER|151 151 000000000000000003415558044c494e45000000024849; 128 0 ;
no ninth call is made|-|8||OPEN AUX_INT;BYTES AUX_INT 48490A;DRAIN LOG 2;CLOSE AUX_INT PEER|151 151 000000000000000003415558044c494e45000000024849; 128 128 ;
the line of a drain fails|2|-||OPEN AUX_INT;BYTES AUX_INT 48490A;DRAIN LOG 2;CLOSE AUX_INT PEER|151 0 000000000000000003415558044c494e45000000024849; 128 0 ;
END fails|4|-||OPEN AUX_INT;BYTES AUX_INT 48490A;DRAIN LOG 2;CLOSE AUX_INT PEER|151 151 000000000000000003415558044c494e45000000024849; 128 128 ;
an event is refused|-|-||OPEN AUX_INT;BYTES AUX_INT 48490A;OPEN AUX_INT|128 0 ; 128 0 ;
an event is refused after a drain|-|-||OPEN AUX_INT;BYTES AUX_INT 48490A;DRAIN LOG 2;OPEN AUX_INT|151 0 000000000000000003415558044c494e45000000024849; 128 0 ;
the script is refused|-|-||OPEN AUX_INT;x|0 0 ; 0 0 ;
an interface that is not logged|-|-|DONT_LOG|OPEN AUX_INT;BYTES AUX_INT 48490A;DRAIN LOG 2;CLOSE AUX_INT PEER|128 128 ; 128 128 ;";

#[test]
fn logs_have_what_was_drained(rt: HostRuntime) -> Result<(), Fail> {
    rows_told::<Kept>(rt.alloc(), KEPT)
}

// A command is in the log of the interface to which it goes.
const COMMANDS: &str =
    r#"a command|-|-|DONT_LOG|OPEN INST_INT;CALL 0 '{"jsonrpc":"2.0","method":"cmd","params":["INST COLLECT with DURATION 10"]}'|128 128 ; 156 156 000000000000000004494e535407434f4c4c4543540000000307000a;"#;

#[test]
fn commands_are_logged(rt: HostRuntime) -> Result<(), Fail> {
    rows_told::<Kept>(rt.alloc(), COMMANDS)
}
