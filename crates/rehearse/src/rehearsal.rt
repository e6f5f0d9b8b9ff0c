//! A world with a clock for each of its machines. A refusal changes nothing; each call says so itself, since a reader of one call
//! looks for it there.
ghost use Rattle.std.specs.Prelude.{◌≡◌, true, map, replicate, vec_items, IfOk, OnErr, MatchResult};
ghost use Rattle.clocks.specs.Counting.{pass, turned, fresh_dial};
ghost use Rattle.rehearse.specs.Promise.{RehearsalsHold};
ghost use Rattle.rehearse.specs.Rehearsals.{NotOpened, RehearsalView, all_go_on, answer_input, around_now, can_open, input_after, input_reply, opening, pace_after, pace_reply, pass_after, pass_reply};

use clocks::counting::{Clock, Drift};
use clocks::growth::Span;
use clocks::rates::Rate;
use std::alloc::{AllocError, Global};
use std::marker::Model;
use votes::types::{Refusal, Setup};
use world::actions::{Action, Input, NotMade, Reply};
use world::types::World;

// The most machines that a rehearsal has.
const MACHINES: usize = 4;

// Can all clocks go on by so much, and show no more than the highest number?
fn all_go_on(clocks: &[Clock], by: u64) -> bool
    ensures { result ≡ all_go_on by clocks.now }
{
    clocks.iter().all(|clock| clock.passed(by).is_some())
}

// All clocks, which can, go on by so much.
fn pass_each(clocks: &mut [Clock], by: u64)
    requires { all_go_on by clocks.old ≡ true }
    ensures { clocks.new ≡ map (turned (pass by)) clocks.old }
{
    for clock in clocks {
        *clock = clock.passed(by).unwrap();
    }
}

// So many clocks that show 0 and run exactly.
fn fresh_clocks(heap: Global, rate: Rate, count: usize) -> Result<Vec<Clock>, AllocError>
    ensures { IfOk result (λ v. v.items ≡ replicate count (fresh_dial rate)) }
{
    Ok(vec![in heap; Clock::new(rate); count]?)
}

/// A world, and the clock of each of its machines.
#[derive(Drop)]
pub(crate) struct Rehearsal {
    world: World,
    // not in the machines of the world, which takes any clock reading
    clocks: Vec<Clock>,
}

impl Model for Rehearsal {
    ghost Value = { RehearsalView };

    ghost view = { λ r. record { world = r.world; dials = vec_items r.clocks } };
}

impl Rehearsal {
    /// So many machines, all alike, whose clocks show 0 and run exactly.
    pub(crate) fn new(heap: Global, machines: u64, setup: Setup) -> Result<Rehearsal, NotMade>
        ensures { MatchResult result (λ r. (can_open machines setup ≡ true) × (r ≡ opening machines setup)) (λ e. NotOpened machines setup e) }
    {
        // an array, so that there is no want of memory before the world itself tells what is wrong
        let setups = [setup; MACHINES];
        let setups = setups.get(..machines as usize).ok_or(NotMade::Invalid)?;
        let world = World::new(heap, setups)?;
        let rate = Rate::new(setup.rate).unwrap();
        let clocks = fresh_clocks(heap, rate, setups.len())?;
        Ok(Rehearsal { world, clocks })
    }

    /// The true time.
    pub(crate) fn time(&self) -> u64
        ensures { result ≡ self.now.world.now }
    {
        self.world.time()
    }

    /// The true time goes on, and all clocks with it.
    pub(crate) fn pass(&mut self, by: u64) -> Result<Reply, Refusal>
        ensures reply { result ≡ pass_reply self.old by }
        ensures after { self.new ≡ pass_after self.old by }
        ensures refused { OnErr result (self.new ≡ self.old) }
    {
        if !all_go_on(&self.clocks, by) {
            return Err(Refusal::Invalid);
        }
        let reply = self.world.play(Action::Pass(by))?;
        pass_each(&mut self.clocks, by);
        Ok(reply)
    }

    /// An input comes to a machine, with what its clock shows.
    pub(crate) fn input(&mut self, machine: u64, input: Input) -> Result<Reply, Refusal>
        ensures reply { result ≡ input_reply self.old machine input }
        ensures after { self.new ≡ input_after self.old machine input }
        ensures refused { OnErr result (self.new ≡ self.old) }
    {
        let at = machine as usize;
        let clock = self.clocks.get(at).ok_or(Refusal::Invalid)?;
        let shown = clock.shows();
        self.world.play(Action::Input(at, shown, input))
    }

    /// From now on a machine's clock runs so.
    pub(crate) fn pace(&mut self, machine: u64, drift: Drift) -> Result<(), Refusal>
        ensures reply { result ≡ pace_reply self.old machine drift }
        ensures after { self.new ≡ pace_after self.old machine drift }
        ensures refused { OnErr result (self.new ≡ self.old) }
    {
        let clock = self
            .clocks
            .get_mut(machine as usize)
            .ok_or(Refusal::Invalid)?;
        *clock = clock.drifting(drift).ok_or(Refusal::Invalid)?;
        Ok(())
    }

    /// The answer of a time server, with the number of the machine's last ask of it; where there was none, no number fits. Machine
    /// and server are no struct, since each is looked up apart.
    pub(crate) fn answer(&self, machine: u64, server: u64, span: Span) -> Input
        ensures { result ≡ answer_input self.now machine server span }
    {
        let server = server as usize;
        let number = self.world.last_ask(machine as usize, server).unwrap_or(0);
        Input::Answer(server, number, span)
    }

    /// The span from the true time less one number to it plus another, kept within 0 and the highest number.
    pub(crate) fn around(&self, less: u64, more: u64) -> Span
        ensures { result ≡ around_now self.now less more }
    {
        let time = self.world.time();
        Span {
            low: time.saturating_sub(less),
            high: time.saturating_add(more),
        }
    }
}

/// The promise of every rehearsal.
#[tactic(auto, using(crate::proofs::Plays::rehearsals_hold_lem))]
pub fn rehearsals_hold()
    ensures { RehearsalsHold }
{}
