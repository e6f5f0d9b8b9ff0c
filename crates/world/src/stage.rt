//! The machines of a world and the true time, with the actions played on them. Each call says what it answers and leaves behind, since
//! a reader of one call looks for it there.
ghost use Rattle.std.specs.Prelude.{◌≡◌, true, vec_items, MatchResult};
ghost use Rattle.std.specs.List.{list_all};
ghost use Rattle.votes.specs.Exchanges.{valid_setup};
ghost use Rattle.world.specs.Step.{WorldView, valid, IsStart, Refused, last_ask, reply_of, step};
ghost use Rattle.world.specs.declared.actions.Action.TheVariants as actions;

use crate::actions::{Action, Input, NotMade, Reply};
use crate::machine::{Machine, Reading};
use std::alloc::{AllocError, Global};
use std::marker::Model;
use votes::types::{Refusal, Setup};

// The most machines that a world can have.
const MACHINES: usize = 8;

// The true time, and the machines. That some list of actions led to it is what `World` adds.
#[derive(Drop)]
pub(crate) struct Stage {
    pub(crate) time: u64,
    pub(crate) machines: Vec<Machine>,
}

// Is each setup in range?
fn all_valid(setups: &[Setup]) -> bool
    ensures { result ≡ list_all valid_setup setups.now }
{
    setups.iter().all(Setup::is_valid)
}

// Are there 1 to 8 machines, each in range?
fn are_valid(setups: &[Setup]) -> bool
    ensures { result ≡ valid setups.now }
{
    (1..=MACHINES).contains(&setups.len()) && all_valid(setups)
}

impl Model for Stage {
    ghost Value = { WorldView };

    ghost view = { λ s. record { now = s.time; machines = vec_items s.machines } };
}

impl Stage {
    // A machine for each setup, at true time 0.
    pub(crate) fn new(heap: Global, setups: &[Setup]) -> Result<Stage, NotMade>
        ensures { MatchResult result (λ s. IsStart setups.now s) (λ e. Refused setups.now e) }
    {
        // before anything is allocated, since an invalid setup comes before want of memory
        if !are_valid(setups) {
            return Err(NotMade::Invalid);
        }
        let mut machines = Vec::new(heap);
        // a `for` and no `collect`, since a closure would not know that each setup is in range
        for setup in setups {
            let Some(machine) = Machine::new(*setup) else {
                unreachable()
            };
            machines.push(machine).map_err(AllocError::from)?;
        }
        Ok(Stage { time: 0, machines })
    }

    fn pass(&mut self, by: u64) -> Result<Reply, Refusal>
        ensures reply { result ≡ reply_of self.old (actions.Pass by) }
        ensures after { self.new ≡ step self.old (actions.Pass by) }
    {
        self.time = self.time.checked_add(by).ok_or(Refusal::Invalid)?;
        Ok(Reply::Passed)
    }

    fn input(&mut self, machine: usize, clock: u64, input: Input) -> Result<Reply, Refusal>
        ensures reply { result ≡ reply_of self.old (actions.Input machine clock input) }
        ensures after { self.new ≡ step self.old (actions.Input machine clock input) }
    {
        let at = Reading {
            time: self.time,
            clock,
        };
        let machine = self.machines.get_mut(machine).ok_or(Refusal::Invalid)?;
        machine.take(at, input)
    }

    // Plays one action.
    pub(crate) fn act(&mut self, action: Action) -> Result<Reply, Refusal>
        ensures reply { result ≡ reply_of self.old action }
        ensures after { self.new ≡ step self.old action }
    {
        match action {
            Action::Pass(by) => self.pass(by),
            Action::Input(machine, clock, input) => self.input(machine, clock, input),
        }
    }

    // The number of the last ask that a machine made of a time server, if both are there and it was asked. The two are no struct, since
    // each is looked up apart.
    pub(crate) fn last_ask(&self, machine: usize, server: usize) -> Option<u32>
        ensures { result ≡ last_ask self.now machine server }
    {
        self.machines.get(machine)?.last_ask(server)
    }
}
