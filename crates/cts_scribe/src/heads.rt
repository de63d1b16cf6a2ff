// The heads with which the parts of both logs begin.
ghost use Rattle.std.specs.Prelude.{IfOk};
ghost use Rattle.cts_scribe.specs.Growing.{AreHeads};

use cts_base::{Bytes, Memory};
use cts_def::Site;
use cts_log::{LogKind, head};
use std::alloc::Global;

/// The heads with which the parts of both logs begin.
#[derive(Drop)]
pub(crate) struct Heads {
    /// That of the log of telemetry.
    pub tlm: Bytes,
    /// That of the log of commands.
    pub cmd: Bytes,
}

impl Heads {
    /// In the site's layout, and with this digest of the definitions.
    ///
    /// # Errors
    ///
    /// `Memory`.
    pub fn of(alloc: Global, site: &Site, digest: &[u8; 16]) -> Result<Heads, Memory>
        ensures { IfOk result (λ heads. AreHeads site.now digest.now heads) }
    {
        Ok(Heads {
            tlm: head(alloc, LogKind::Tlm, site.log_layout, digest)?,
            cmd: head(alloc, LogKind::Cmd, site.log_layout, digest)?,
        })
    }
}
