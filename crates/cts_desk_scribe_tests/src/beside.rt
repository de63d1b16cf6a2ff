// A vault beside which another worker goes on.
ghost use Rattle.std.specs.Prelude.{◌≡◌, true, Some};
ghost use Rattle.cts_outside.specs.Causes.{Cause};
ghost use Rattle.cts_outside.specs.InMemory.{logs_of};
ghost use Rattle.cts_outside.specs.Vaults.{Appends, BeginsPart, IsSynced, Syncs};
ghost use Rattle.cts_turn.specs.Lists.{has};
ghost use Rattle.cts_turn.specs.Passes.{IsPassOf, view};

use crate::adding::add;
use cts_entry::{Entry, What};
use cts_outside::{LogKind, MemVault, PutFailed, Vault};
use cts_table::Hall;
use cts_turn::{Pass, Turn};
use std::marker::Model;
use std::sync::Wait;

/// A vault in memory beside which a worker goes on: at each append its next entries come first, up to a packet.
#[derive(Drop)]
pub struct Beside<'a, R: Wait> {
    rt: &'a R,
    turn: &'a Turn<Hall>,
    pass: Option<Pass<Hall>>,
    entries: Vec<Entry>,
    vault: MemVault,
}

impl<'a, R: Wait> Model for Beside<'a, R> {
    ghost use Rattle.std.specs.Prelude.{◌≡◌, true, IfSome};
    ghost use Rattle.cts_outside.specs.InMemory.{VaultHeld};
    ghost use Rattle.cts_turn.specs.Lists.{has};
    ghost use Rattle.cts_turn.specs.Passes.{IsPassOf, view as view_of};

    ghost Value = { VaultHeld };

    ghost view = { λ b. b.vault };

    ghost invariant = { λ b. IfSome b.pass (λ p. IsPassOf b.turn.now p × (has 0 (view_of p).makers ≡ true)) };
}

// Appends the next entries in a hold each, up to a packet.
fn go_on<R: Wait>(
    rt: &R,
    turn: &Turn<Hall>,
    mut pass: Pass<Hall>,
    entries: &mut Vec<Entry>,
) -> Pass<Hall>
    requires pass { IsPassOf turn.now pass }
    requires by { has 0 (view pass).makers ≡ true }
    ensures pass { IsPassOf turn.now result }
    ensures by { has 0 (view result).makers ≡ true }
{
    'entries: while let Some(entry) = entries.pop() {
        let packet = matches!(entry.what, What::Packet { .. });
        pass = say(rt, turn, pass, entry);
        if packet {
            return pass;
        }
    }
    pass
}

// Appends an entry of the first interface in a hold.
fn say<R: Wait>(rt: &R, turn: &Turn<Hall>, pass: Pass<Hall>, entry: Entry) -> Pass<Hall>
    requires pass { IsPassOf turn.now pass }
    requires by { has 0 (view pass).makers ≡ true }
    ensures pass { IsPassOf turn.now result }
    ensures by { has 0 (view result).makers ≡ true }
{
    if entry.by != 0 {
        return pass;
    }
    let mut held = turn.enter(rt, pass);
    add(held.state_mut(), entry);
    turn.leave(held)
}

impl<'a, R: Wait> Beside<'a, R> {
    /// A vault to which nothing was appended yet, and the entries of the first interface, the last one first.
    pub fn new(
        rt: &'a R,
        turn: &'a Turn<Hall>,
        pass: Pass<Hall>,
        entries: Vec<Entry>,
        vault: MemVault,
    ) -> Beside<'a, R>
        requires pass { IsPassOf turn.now pass }
        requires by { has 0 (view pass).makers ≡ true }
        ensures { result ≡ vault }
    {
        Beside {
            rt,
            turn,
            pass: Some(pass),
            entries,
            vault,
        }
    }

    /// The vault.
    pub fn into_vault(self) -> MemVault
        ensures { result ≡ self.entry }
    {
        self.vault
    }

    fn go_on(&mut self)
        ensures { self.new ≡ self.old }
    {
        if let Some(pass) = self.pass.take() {
            self.pass = Some(go_on(self.rt, self.turn, pass, &mut self.entries));
        }
    }
}

impl<'a, R: Wait> Vault for Beside<'a, R> {
    ghost seen = { λ v. record { told = Some (logs_of v); faults = v.faults } };

    fn append(&mut self, kind: LogKind, bytes: &[u8]) -> Result<(), PutFailed>
        ensures content { Appends kind (Some (logs_of self.old)) (Some (logs_of self.new)) bytes.now result }
        ensures cause { Cause result self.old.faults self.new.faults }
    {
        self.go_on();
        self.vault.append(kind, bytes)
    }

    fn sync(&mut self, kind: LogKind) -> Result<(), PutFailed>
        ensures content { Syncs kind (Some (logs_of self.old)) (Some (logs_of self.new)) result }
        ensures cause { Cause result self.old.faults self.new.faults }
    {
        self.vault.sync(kind)
    }

    fn part(&mut self, kind: LogKind) -> Result<(), PutFailed>
        requires synced { IsSynced kind (Some (logs_of self.old)) }
        ensures content { BeginsPart kind (Some (logs_of self.old)) (Some (logs_of self.new)) result }
        ensures cause { Cause result self.old.faults self.new.faults }
    {
        self.vault.part(kind)
    }
}
