// Where new parts of both logs begin.
ghost use Rattle.std.specs.Prelude.{[]};
ghost use Rattle.cts_scribe.specs.Growing.{Count};

use cts_def::Site;
use cts_log::Cycle;

/// How long the last part of each log is, by which it is said where the next one begins.
#[derive(Drop)]
pub(crate) struct Cycles {
    /// Of the log of telemetry.
    pub tlm: Cycle,
    /// Of the log of commands.
    pub cmd: Cycle,
}

impl Cycles {
    /// Of the logs of a site, to which no entry has come yet.
    pub fn begin(site: &Site) -> Cycles
        ensures { Count site.now [] result }
    {
        Cycles {
            tlm: Cycle::new(site.log_cycle),
            cmd: Cycle::new(site.log_cycle),
        }
    }
}
