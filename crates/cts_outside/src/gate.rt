// Places at which a worker may be held.
use std::sync::Wait;

/// What a worker has just done when it comes to the gate.
#[derive(Clone, Copy, PartialEq, Eq)]
pub enum GateStage {
    /// It has begun.
    Started,
    /// It has taken a piece.
    Took,
    /// It has appended the entries of a piece.
    Posted,
    /// It has put a whole response.
    Answered,
}

/// What workers come by, so that a test can hold one until another has done something. It says nothing to them.
pub trait Gate {
    /// The worker of this number has come to this stage. It may wait here.
    fn pass<R: Wait>(&self, rt: &R, by: u32, stage: GateStage);
}

/// A gate at which nobody waits.
#[derive(Drop)]
pub struct OpenGate;

impl OpenGate {
    /// A gate at which nobody waits.
    pub fn new() -> OpenGate {
        OpenGate
    }
}

impl Gate for OpenGate {
    fn pass<R: Wait>(&self, _rt: &R, _by: u32, _stage: GateStage) {}
}
