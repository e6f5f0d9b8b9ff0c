//! One machine of a world, with the true times of its exchanges beside it. The machine itself never sees those; they are noted
//! because the promise speaks of them. Each call says what it answers and leaves behind, since a reader of one call looks for it there.
ghost use Rattle.std.specs.Prelude.{◌≡◌, true, false, MatchOption};
ghost use Rattle.world.specs.Step.{made, machine_reply, machine_after};
ghost use Rattle.votes.specs.Exchanges.{valid_setup, last_number};
ghost use Rattle.world.specs.declared.actions.Input.TheVariants as inputs;

use crate::actions::{Input, Reply};
use clocks::growth::Span;
use votes::types::{Refusal, SERVERS, Setup, Votes};

/// The true times of one time server's exchange: of the last ask, of the ask that the last answer was to, and of that answer.
#[derive(Clone, Copy, PartialEq, Eq, Debug, Default)]
pub struct Moments {
    pub asked: u64,
    pub begun: u64,
    pub answered: u64,
}

/// What a machine's clock shows, and the true time then.
#[derive(Clone, Copy)]
pub(crate) struct Reading {
    pub(crate) time: u64,
    pub(crate) clock: u64,
}

/// A machine, the true times of its exchanges, and the true time of the last clock reading that it took.
#[derive(Clone, Copy)]
pub struct Machine {
    pub(crate) votes: Votes,
    // not in the exchanges of `votes`, since a machine never sees true times
    pub(crate) moments: [Moments; SERVERS],
    pub(crate) looked: u64,
}

impl Machine {
    // A machine that comes up at true time 0; nothing where its setup is out of range.
    pub(crate) fn new(setup: Setup) -> Option<Machine>
        ensures { MatchOption result (valid_setup setup ≡ false) (λ m. (valid_setup setup ≡ true) × (m ≡ made setup)) }
    {
        Some(Machine {
            votes: Votes::new(setup)?,
            moments: [Moments::default(); SERVERS],
            looked: 0,
        })
    }

    // The number of the last ask of a time server, if it is there and was asked.
    pub(crate) fn last_ask(&self, server: usize) -> Option<u32>
        ensures { result ≡ last_number self.now.votes server }
    {
        self.votes.last_ask(server)
    }

    fn ask(&mut self, at: Reading, server: usize) -> Result<Reply, Refusal>
        ensures reply { result ≡ machine_reply self.old at.clock (inputs.Ask server) }
        ensures after { self.new ≡ machine_after self.old at.time at.clock (inputs.Ask server) }
    {
        let number = self.votes.ask(server, at.clock)?;
        self.moments[server].asked = at.time;
        self.looked = at.time;
        Ok(Reply::Asked(number))
    }

    // the three parts of an answer are no struct, which would be taken apart by the next call
    fn answer(
        &mut self,
        at: Reading,
        server: usize,
        number: u32,
        span: Span,
    ) -> Result<Reply, Refusal>
        ensures reply { result ≡ machine_reply self.old at.clock (inputs.Answer server number span) }
        ensures after { self.new ≡ machine_after self.old at.time at.clock (inputs.Answer server number span) }
    {
        self.votes.answer(server, number, span, at.clock)?;
        let moments = &mut self.moments[server];
        moments.begun = moments.asked;
        moments.answered = at.time;
        self.looked = at.time;
        Ok(Reply::Taken)
    }

    fn span(&mut self, at: Reading) -> Result<Reply, Refusal>
        ensures reply { result ≡ machine_reply self.old at.clock inputs.Span }
        ensures after { self.new ≡ machine_after self.old at.time at.clock inputs.Span }
    {
        let span = self.votes.span(at.clock)?;
        self.looked = at.time;
        Ok(Reply::Span(span))
    }

    // Takes an input, at a true time and with what its clock shows.
    pub(crate) fn take(&mut self, at: Reading, input: Input) -> Result<Reply, Refusal>
        ensures reply { result ≡ machine_reply self.old at.clock input }
        ensures after { self.new ≡ machine_after self.old at.time at.clock input }
    {
        match input {
            Input::Ask(server) => self.ask(at, server),
            Input::Answer(server, number, span) => self.answer(at, server, number, span),
            Input::Span => self.span(at),
        }
    }
}
