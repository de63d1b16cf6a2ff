// The demo's site: the files that a rehearsal reads, which stand in the program.
ghost use Rattle.std.specs.Prelude.{◌≡◌, ◌<◌, length, Some};
ghost use Rattle.cts_outside.specs.Causes.{AbsenceCause, ReadCause};
ghost use Rattle.cts_outside.specs.Contents.{IsFound, ReadFits, ReadGives};
ghost use Rattle.cts_run.specs.Demo.{definitions_name, definitions_text, demo_files, site_name, site_text};

use crate::file_name::FileName;
use cts_outside::{FileGot, Files};

// An instrument with a temperature that is watched and a command, and a unit that sends lines of text.
const DEFINITIONS: &[u8] = b"\
TELEMETRY INST HS BIG_ENDIAN \"Health and status\"\n\
\x20 APPEND_ID_ITEM PKTID 8 UINT 1 \"Packet id\"\n\
\x20 APPEND_ITEM TEMP1 16 UINT \"Temperature\"\n\
\x20   POLY_READ_CONVERSION -100.0 0.00305\n\
\x20   LIMITS DEFAULT 1 ENABLED -80.0 -70.0 60.0 80.0\n\
\x20   LIMITS TVAC 1 ENABLED -80.0 -70.0 0.0 80.0\n\
\x20   UNITS CELSIUS C\n\
\x20   FORMAT_STRING \"%0.3f\"\n\
\x20 APPEND_ITEM MODE 8 UINT\n\
\x20   STATE OFF 0\n\
\x20   STATE ON 1\n\
TELEMETRY AUX LINE BIG_ENDIAN \"A line of text\"\n\
\x20 APPEND_ITEM TEXT 0 STRING\n\
COMMAND INST COLLECT BIG_ENDIAN \"Start a collect\"\n\
\x20 APPEND_ID_PARAMETER OPCODE 8 UINT 7 7 7 \"Opcode\"\n\
\x20 APPEND_PARAMETER DURATION 16 UINT 0 10 5 \"Duration\"\n";

// An interface for each, and a router for the instrument.
const SITE: &[u8] = b"\
TITLE \"Demo\"\n\
INTERFACE INST_INT tcpip_client_interface.rb localhost 8080 8080 10.0 nil LENGTH 0 16 0 1 BIG_ENDIAN 2 nil nil true\n\
\x20 TARGET INST\n\
INTERFACE AUX_INT tcpip_client_interface.rb localhost 8081 8081 10.0 nil TERMINATED 0x0A 0x0A\n\
\x20 TARGET AUX\n\
ROUTER OUT tcpip_server_interface.rb 2950 2950 10.0 nil PREIDENTIFIED\n\
\x20 ROUTE INST_INT\n";

/// The files of the demo's site. Each read of them gives bytes, so that none fails and none is absent.
#[derive(Drop)]
pub struct DemoFiles;

impl Files for DemoFiles {
    ghost seen = { λ _. record { told = Some demo_files; faults = 0; absences = 0 } };

    fn read(&mut self, name: &str, from: u64, buffer: &mut [u8]) -> FileGot
        requires { 0 < length buffer.old }
        ensures content { ReadGives (demo_files name.now) from result buffer.new }
        ensures fits { ReadFits result (length buffer.old) }
        ensures cause { ReadCause result 0 0 }
        ensures absence { AbsenceCause result 0 0 }
    {
        copy_from(content_of(name), from, buffer)
    }
}

/// The name of its definitions.
pub(crate) fn definitions_name() -> FileName<'static>
    ensures { result ≡ definitions_name }
{
    FileName::of("definitions")
}

/// The name of its site.
pub(crate) fn site_name() -> FileName<'static>
    ensures { result ≡ site_name }
{
    FileName::of("site")
}

// The content of the file of that name.
fn content_of(name: &str) -> &'static [u8]
    ensures { Some result.now ≡ demo_files name.now }
{
    if name == "definitions" {
        definitions()
    } else {
        site()
    }
}

#[tactic(auto, unfolding(crate::specs::Demo::definitions_text))]
fn definitions() -> &'static [u8]
    ensures { result.now ≡ definitions_text }
{
    DEFINITIONS
}

#[tactic(auto, unfolding(crate::specs::Demo::site_text))]
fn site() -> &'static [u8]
    ensures { result.now ≡ site_text }
{
    SITE
}

// Fills the front of the buffer with the bytes from that place on.
fn copy_from(bytes: &[u8], from: u64, buffer: &mut [u8]) -> FileGot
    requires { 0 < length buffer.old }
    ensures content { ReadGives (Some bytes.now) from result buffer.new }
    ensures fits { ReadFits result (length buffer.old) }
    ensures found { IsFound result }
{
    if from >= bytes.len() as u64 {
        return FileGot::End;
    }
    let start = from as usize;
    let count = buffer.len().min(bytes.len() - start);
    buffer[..count].copy_from_slice(&bytes[start..start + count]);
    FileGot::Got(count)
}
