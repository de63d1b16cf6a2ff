// The names of log files.
ghost use Rattle.std.specs.Prelude.{◌≡◌, ◌++◌, codes, IfOk};
ghost use Rattle.std.specs.Fmt.{decimal};
ghost use Rattle.std.specs.String.{string_bytes};

use cts_base::Memory;
use std::alloc::Global;

/// The names of the files of a server's packet logs.
#[derive(Debug, Drop)]
pub struct LogNames {
    /// That of the log of packets.
    pub tlm: String,
    /// That of the log of commands.
    pub cmd: String,
}

impl LogNames {
    /// Those of a server that starts at this second, counted from 1970.
    pub fn of_second(alloc: Global, seconds: u32) -> Result<LogNames, Memory>
        ensures tlm { IfOk result (λ names. string_bytes names.tlm ≡ decimal seconds ++ codes "_tlm.bin") }
        ensures cmd { IfOk result (λ names. string_bytes names.cmd ≡ decimal seconds ++ codes "_cmd.bin") }
    {
        Ok(LogNames {
            tlm: format!(in alloc; "{seconds}_tlm.bin")?,
            cmd: format!(in alloc; "{seconds}_cmd.bin")?,
        })
    }
}
