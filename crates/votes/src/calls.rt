//! The calls on a machine's exchanges. A refusal changes nothing; each call says so itself, since a reader of one call looks for it there.
ghost use Rattle.std.specs.Prelude.{◌≡◌, ◌-◌, ◌<◌, IsTrue, false, true, map, OnOk, OnErr, MatchOption, MatchResult};
ghost use Rattle.votes.specs.Exchanges.{number_of, setup_of, valid_setup, IsOpened, IsInRange, fits, next_number, ask_reply, ask_after, last_number, answer_reply, answer_after, grown_exchange, spans_at, span_of, span_reply, span_after};
ghost use Rattle.votes.specs.Promise.{Lawful, NoVotes, SpanGiven};

use crate::counts::outermost;
use crate::types::{Ask, Exchange, Refusal, SERVERS, Setup, Votes};
use clocks::growth::{Answer, Span};
use clocks::rates::Rate;

impl Refusal {
    /// Its number in the lines and messages. Not `u8::from`, which would not say which number that is; and a method of each enum that
    /// has numbers, since a trait over them would say no more.
    pub fn number(self) -> u8
        ensures { result ≡ number_of self }
    {
        self as u8
    }
}

impl Setup {
    /// What three numbers ask for, with asks that are numbered from 1.
    pub fn numbered(servers: u64, faulty: u64, rate: u64) -> Setup
        ensures { result ≡ setup_of servers faulty rate }
    {
        Setup {
            servers: servers as usize,
            faulty: faulty as usize,
            rate,
            first: 1,
        }
    }

    /// Are its numbers in range: 1 to 16 time servers, twice as many as may be faulty below that, and a rate of at most 1,000?
    pub fn is_valid(&self) -> bool
        ensures { result ≡ valid_setup self.now }
    {
        self.servers <= SERVERS
            && self.faulty < SERVERS
            && 2 * self.faulty < self.servers
            && Rate::new(self.rate).is_some()
    }
}

impl Exchange {
    // The number of the next ask.
    fn next_number(self, first: u32) -> u32
        ensures { result ≡ next_number first self.ask }
    {
        self.ask.map_or(first, |ask| ask.number.wrapping_add(1))
    }

    // What the last answer has grown to at a clock reading.
    fn grown(self, rate: Rate, clock: u64) -> Option<Span>
        ensures { result ≡ grown_exchange rate clock self }
    {
        self.known.map(|answer| answer.grown(rate, clock))
    }
}

impl Votes {
    /// A machine that has asked nobody yet; nothing where its setup is out of range.
    pub fn new(setup: Setup) -> Option<Votes>
        ensures { MatchOption result (valid_setup setup ≡ false) (λ v. IsOpened setup v) }
    {
        if !setup.is_valid() {
            return None;
        }
        Some(Votes {
            rate: Rate::new(setup.rate)?,
            servers: setup.servers,
            faulty: setup.faulty,
            first: setup.first,
            latest: 0,
            exchanges: [Exchange::default(); SERVERS],
        })
    }

    // Is a time server there, and a clock reading not below an earlier one?
    fn fits(&self, server: usize, clock: u64) -> bool
        ensures value { result ≡ fits self.now server clock }
        ensures there { IsTrue result → server < SERVERS }
        ensures ranges { IsInRange self.now }
    {
        server < self.servers && clock >= self.latest
    }

    /// Asks a time server: the number to send it.
    pub fn ask(&mut self, server: usize, clock: u64) -> Result<u32, Refusal>
        ensures reply { result ≡ ask_reply self.old server clock }
        ensures after { self.new ≡ ask_after self.old server clock }
        ensures there { OnOk result (server < SERVERS) }
        ensures refused { OnErr result (self.new ≡ self.old) }
        ensures ranges { IsInRange self.new }
    {
        if !self.fits(server, clock) {
            return Err(Refusal::Invalid);
        }
        let number = self.exchanges[server].next_number(self.first);
        self.exchanges[server].ask = Some(Ask { number, clock });
        self.latest = clock;
        Ok(number)
    }

    /// The number of the last ask of a time server, if it is there and was asked.
    pub fn last_ask(&self, server: usize) -> Option<u32>
        ensures value { result ≡ last_number self.now server }
        ensures ranges { IsInRange self.now }
    {
        let exchange = self.exchanges[..self.servers].get(server)?;
        exchange.ask.map(|ask| ask.number)
    }

    /// Takes an answer to the last ask of a time server. Its three parts are no struct, which would be made only to be taken apart here.
    pub fn answer(
        &mut self,
        server: usize,
        number: u32,
        span: Span,
        clock: u64,
    ) -> Result<(), Refusal>
        ensures reply { result ≡ answer_reply self.old server number span clock }
        ensures after { self.new ≡ answer_after self.old server number span clock }
        ensures there { OnOk result (server < SERVERS) }
        ensures refused { OnErr result (self.new ≡ self.old) }
        ensures ranges { IsInRange self.new }
    {
        if !self.fits(server, clock) || span.low > span.high {
            return Err(Refusal::Invalid);
        }
        let ask = self.exchanges[server].ask.ok_or(Refusal::WrongNumber)?;
        if ask.number != number {
            return Err(Refusal::WrongNumber);
        }
        self.exchanges[server].known = Some(Answer {
            asked: ask.clock,
            answered: clock,
            span,
        });
        self.latest = clock;
        Ok(())
    }

    // What each time server's last answer has grown to.
    fn grown(&self, clock: u64) -> [Option<Span>; SERVERS]
        ensures { result ≡ map (grown_exchange self.now.rate clock) self.now.exchanges }
    {
        // place by place: `map` of an array would copy all exchanges first
        let mut spans = [None; SERVERS];
        for (server, exchange) in self.exchanges.iter().enumerate() {
            spans[server] = exchange.grown(self.rate, clock);
        }
        spans
    }

    // The machine's span out of the grown spans.
    fn chosen_by_rule(&self, clock: u64) -> Option<Span>
        ensures { result ≡ span_of (self.now.servers - self.now.faulty) (spans_at self.now clock) }
    {
        let spans = self.grown(clock);
        let found = outermost(&spans[..self.servers], self.servers - self.faulty);
        Some(Span {
            low: found.low?,
            high: found.high?,
        })
    }

    // The same, with what is promised of it.
    fn chosen(&self, clock: u64) -> Option<Span>
        ensures value { result ≡ span_of (self.now.servers - self.now.faulty) (spans_at self.now clock) }
        ensures laws { MatchOption result (NoVotes self.now clock) (λ s. Lawful self.now clock s) }
    {
        // the laws rest on the invariant, which is known where a field is used
        let _ = &self.rate;
        self.chosen_by_rule(clock)
    }

    /// The machine's span when its clock shows this. The laws say that it holds the true time whenever at most f of the time
    /// servers are faulty and the clock keeps within its error, and that it is refused for want of votes only where that is not so.
    pub fn span(&mut self, clock: u64) -> Result<Span, Refusal>
        ensures reply { result ≡ span_reply self.old clock }
        ensures after { self.new ≡ span_after self.old clock }
        ensures refused { OnErr result (self.new ≡ self.old) }
        ensures ranges { IsInRange self.new }
        ensures laws { MatchResult result (λ s. Lawful self.old clock s) (λ e. e ≡ Refusal.NoSpan → NoVotes self.old clock) }
    {
        if clock < self.latest {
            return Err(Refusal::Invalid);
        }
        let span = self.chosen(clock).ok_or(Refusal::NoSpan)?;
        self.latest = clock;
        Ok(span)
    }
}

/// The promise of a span, as a theorem on the definitions.
pub fn span_given()
    ensures { SpanGiven }
{}
