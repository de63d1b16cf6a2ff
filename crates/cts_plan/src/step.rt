// The protocols of an interface or router that is not complete.

use crate::fixed::FixedParameters;
use cts_def::ProtoSpec;
use std::marker::Model;

/// The parameters of a protocol.
#[derive(Drop)]
pub enum Parameters {
    /// Those of a protocol that needs no packets.
    Ready(ProtoSpec),
    /// Those of FIXED.
    Fixed(FixedParameters),
}

/// A protocol of an interface or router.
#[derive(Drop)]
pub struct Step {
    /// The line of its statement.
    pub line: u32,
    /// What it is.
    pub parameters: Parameters,
    /// Whether it cuts what is read.
    pub reads: bool,
    /// Whether it frames what is written.
    pub writes: bool,
}

impl Model for Step {
    ghost use Rattle.std.specs.Prelude.{◌||◌, IsTrue};
    ghost use Rattle.cts_plan.specs.Steps.{StepData, spec_in, are_kept};

    ghost Value = { StepData };

    ghost view = { λ s. record { line = s.line; used = record { spec = spec_in s.parameters; reads = s.reads; writes = s.writes } } };

    ghost invariant = { λ s. IsTrue (are_kept s.parameters) × IsTrue (s.reads || s.writes) };
}
