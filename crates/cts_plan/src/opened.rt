// Interfaces and routers as far as their statements are read.
ghost use Rattle.std.specs.Prelude.{◌≡◌, false, ◌&&◌, nat_le, length, IfOk, OnOk, [], ◌∷◌, ◌++◌};
ghost use Rattle.std.specs.List.{list_any};
ghost use Rattle.cts_def.specs.Most.{most_protocols};
ghost use Rattle.cts_plan.specs.Steps.{step_reads, step_reads_packets};

use crate::step::Step;
use cts_base::{Bytes, Decimal, List, Memory, Name};
use std::alloc::Global;
use std::marker::Model;

/// At most four protocols, none of which reads after one that reads packets.
#[derive(Drop)]
pub struct Chain {
    steps: List<Step>,
}

impl Model for Chain {
    ghost use Rattle.std.specs.Prelude.{List as Items};
    ghost use Rattle.cts_plan.specs.Steps.{StepData};
    ghost use Rattle.cts_plan.specs.Drafts.{IsSoundChain};

    ghost Value = { Items StepData };

    ghost view = { λ c. c.steps };

    ghost invariant = { λ c. IsSoundChain c.steps };
}

impl Chain {
    /// No protocol.
    pub(crate) fn new(alloc: Global) -> Chain
        ensures { result ≡ [] }
    {
        Chain {
            steps: List::new(alloc),
        }
    }

    /// Adds a protocol.
    pub(crate) fn push(&mut self, step: Step) -> Result<(), Memory>
        requires room { nat_le most_protocols (length self.old) ≡ false }
        requires last { (step_reads step && list_any step_reads_packets self.old) ≡ false }
        ensures { OnOk result (self.new ≡ self.old ++ step ∷ []) }
    {
        self.steps.push(step)?;
        Ok(())
    }

    /// The protocols, in their order.
    pub(crate) fn as_slice(&self) -> &[Step]
        ensures { result.now ≡ self.now }
    {
        self.steps.as_slice()
    }

    /// The protocols, with their memory.
    pub(crate) fn into_steps(self) -> List<Step>
        ensures { result ≡ self }
    {
        let Chain { steps } = self;
        steps
    }
}

/// An interface that is read.
#[derive(Drop)]
pub struct InterfaceDraft {
    /// The line of the statement that opened it.
    pub line: u32,
    /// Its name.
    pub name: Name,
    /// The host to which it connects, without bytes where it serves.
    pub host: Bytes,
    /// Whether it accepts connections.
    pub serves: bool,
    /// Its port.
    pub port: u16,
    /// Its protocols so far.
    pub chain: Chain,
    /// Its targets so far.
    pub targets: List<Name>,
    /// How many seconds it waits before it connects again.
    pub delay: Decimal,
    /// Whether it connects again.
    pub reconnect: bool,
    /// Whether it is logged.
    pub logged: bool,
}

impl Model for InterfaceDraft {
    ghost use Rattle.cts_plan.specs.Drafts.{InterfaceDraftData, IsSoundInterfaceDraft};

    ghost Value = { InterfaceDraftData };

    ghost view = { λ i. record {
      line = i.line;
      name = i.name;
      host = i.host;
      serves = i.serves;
      port = i.port;
      chain = i.chain;
      targets = i.targets;
      delay = i.delay;
      reconnect = i.reconnect;
      logged = i.logged;
    } };

    ghost invariant = { λ i. IsSoundInterfaceDraft (record {
      line = i.line;
      name = i.name;
      host = i.host;
      serves = i.serves;
      port = i.port;
      chain = i.chain;
      targets = i.targets;
      delay = i.delay;
      reconnect = i.reconnect;
      logged = i.logged;
    }) };
}

/// A router that is read.
#[derive(Drop)]
pub struct RouterDraft {
    /// The line of the statement that opened it.
    pub line: u32,
    /// Its name.
    pub name: Name,
    /// Its port.
    pub port: u16,
    /// Its protocols so far.
    pub chain: Chain,
    /// The numbers of the interfaces that are routed to it so far.
    pub routes: List<u32>,
}

impl Model for RouterDraft {
    ghost use Rattle.cts_plan.specs.Drafts.{RouterDraftData, IsSoundRouterDraft};

    ghost Value = { RouterDraftData };

    ghost view = { λ r. record { line = r.line; name = r.name; port = r.port; chain = r.chain; routes = r.routes } };

    ghost invariant = { λ r. IsSoundRouterDraft (record { line = r.line; name = r.name; port = r.port; chain = r.chain; routes = r.routes }) };
}

/// The interface or router to which further lines belong.
#[derive(Drop)]
pub enum Current {
    /// None.
    Nothing,
    /// An interface.
    Interface(InterfaceDraft),
    /// A router.
    Router(RouterDraft),
}
