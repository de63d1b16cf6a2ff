// FIXED before its packets are known.

use cts_base::Bytes;
use std::marker::Model;

/// The parameters of FIXED as its statement gives them: its packets are known when all targets are.
#[derive(Drop)]
pub struct FixedParameters {
    /// How many bytes identify a packet.
    pub min_id: u32,
    /// How many leading bytes are taken off.
    pub discard: u32,
    /// The sync pattern, without bytes for none.
    pub sync: Bytes,
    /// Whether the packets are telemetry packets or commands.
    pub telemetry: bool,
    /// Whether discarded bytes and the sync pattern are written.
    pub fill: bool,
    /// Whether an unknown start is an error.
    pub raise: bool,
}

impl Model for FixedParameters {
    ghost use Rattle.std.specs.Prelude.{[]};
    ghost use Rattle.cts_def.specs.Protocols.{FixedData};
    ghost use Rattle.cts_plan.specs.Fixed.{IsSoundFixed};

    ghost Value = { FixedData };

    ghost view = { λ f. record {
      min_id = f.min_id;
      discard = f.discard;
      sync = f.sync;
      telemetry = f.telemetry;
      fill = f.fill;
      raise = f.raise;
      starts = [];
    } };

    ghost invariant = { λ f. IsSoundFixed (record {
      min_id = f.min_id;
      discard = f.discard;
      sync = f.sync;
      telemetry = f.telemetry;
      fill = f.fill;
      raise = f.raise;
      starts = [];
    }) };
}
