//! The calls of a world. A refusal changes nothing; each call says so itself, since a reader of one call looks for it there.
ghost use Rattle.std.specs.Prelude.{◌≡◌, IfOk, OnErr, MatchResult};
ghost use Rattle.world.specs.Promise.{Reached, SpanTrue, SpansHold};
ghost use Rattle.world.specs.Step.{IsStart, Refused, last_ask, reply_of, step};

use crate::actions::{Action, NotMade, Reply};
use crate::stage::Stage;
use crate::types::World;
use std::alloc::Global;
use votes::types::{Refusal, Setup};

impl World {
    // The world of a stage that nothing has happened on: the empty list of actions led to it.
    fn at_start(setups: &[Setup], stage: Stage) -> World
        requires { IsStart setups.now stage }
        ensures value { result ≡ stage }
        ensures reached { ∥ Reached result ∥₁ }
    {
        World { stage }
    }

    /// A world of 1 to 8 machines, at true time 0, or why there is none.
    pub fn new(heap: Global, setups: &[Setup]) -> Result<World, NotMade>
        ensures made { MatchResult result (λ w. IsStart setups.now w) (λ e. Refused setups.now e) }
        ensures reached { IfOk result (λ w. ∥ Reached w ∥₁) }
    {
        let stage = Stage::new(heap, setups)?;
        Ok(World::at_start(setups, stage))
    }

    /// The true time.
    pub fn time(&self) -> u64
        ensures value { result ≡ self.now.now }
        ensures reached { ∥ Reached self.now ∥₁ }
    {
        self.stage.time
    }

    /// The number of the last ask that a machine made of a time server, if both are there and it was asked. The two are no struct, since
    /// each is looked up apart.
    pub fn last_ask(&self, machine: usize, server: usize) -> Option<u32>
        ensures value { result ≡ last_ask self.now machine server }
        ensures reached { ∥ Reached self.now ∥₁ }
    {
        self.stage.last_ask(machine, server)
    }

    // What `play` does. The proof of it stands here, so that `play` itself needs none, and a wrong call in it is refused where it stands.
    fn act(&mut self, action: Action) -> Result<Reply, Refusal>
        ensures reply { result ≡ reply_of self.old action }
        ensures after { self.new ≡ step self.old action }
        ensures refused { OnErr result (self.new ≡ self.old) }
        ensures promise { SpanTrue self.old action result }
        ensures reached { ∥ Reached self.new ∥₁ }
    {
        self.stage.act(action)
    }

    /// Plays one action. A machine that is to be trusted, asked for its span, gives one that holds the true time.
    pub fn play(&mut self, action: Action) -> Result<Reply, Refusal>
        ensures reply { result ≡ reply_of self.old action }
        ensures after { self.new ≡ step self.old action }
        ensures refused { OnErr result (self.new ≡ self.old) }
        ensures promise { SpanTrue self.old action result }
        ensures reached { ∥ Reached self.new ∥₁ }
    {
        self.act(action)
    }
}

/// The promise over every list of actions.
#[tactic(auto, using(crate::proofs::Worlds::spans_hold_lem))]
pub fn spans_hold()
    ensures { SpansHold }
{}
