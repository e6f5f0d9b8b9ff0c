//! A clock that counts at a given pace, for rehearsals: what it shows is off by at most its rate, over changes of its pace too.
ghost use Rattle.std.specs.Prelude.{◌≡◌, ◌+◌, ◌-◌, ◌*◌, ◌^◌, ◌<◌, ◌≤◌, MatchOption};
ghost use Rattle.clocks.specs.Counting.{Dial, IsWithin, pass, change, turn, turned, fresh_dial, shown, CountingRuns};
ghost use Rattle.clocks.specs.Dials.{parts_of, pace_of};
ghost use Rattle.clocks.specs.Time.{highest};

use crate::growth::HIGHEST;
use crate::rates::{MILLION, Rate};
use std::marker::Model;

// How many millionths a clock can count before it would show more than the highest number.
const LIMIT: u128 = (HIGHEST as u128 + 1) * MILLION as u128;

/// How a clock runs from a time on: so many parts in a million fast, or slow.
#[derive(Clone, Copy, PartialEq, Eq, Debug)]
pub enum Drift {
    Fast(u64),
    Slow(u64),
}

impl Drift {
    /// How many parts in a million the clock is then off.
    pub fn parts(self) -> u64
        ensures { result ≡ parts_of self }
    {
        match self {
            Drift::Fast(parts) | Drift::Slow(parts) => parts,
        }
    }
}

/// A clock that counts millionths of a microsecond, so many for each microsecond of true time, and shows whole microseconds, at
/// most the highest number. Its pace stays within its rate.
#[derive(Clone, Copy)]
pub struct Clock {
    rate: Rate,
    pace: u64,
    counted: u128,
}

impl Model for Clock {
    ghost Value = { Dial };

    ghost view = { λ c. record { rate = c.rate; counting = record { counted = c.counted; pace = c.pace } } };

    ghost invariant = { λ c. IsWithin (record { rate = c.rate; counting = record { counted = c.counted; pace = c.pace } }) };

    ghost inverse = { λ d. record { rate = d.rate; pace = d.counting.pace; counted = d.counting.counted } };
}

impl Clock {
    /// A clock that shows 0 and counts exactly.
    pub fn new(rate: Rate) -> Clock
        ensures { result ≡ fresh_dial rate }
    {
        Clock {
            rate,
            pace: MILLION,
            counted: 0,
        }
    }

    pub fn shows(self) -> u64
        ensures value { result ≡ shown self.counting }
        ensures within { IsWithin self }
    {
        (self.counted / MILLION as u128) as u64
    }

    // What it counts in so much true time.
    fn gain(self, by: u64) -> u128
        ensures value { result ≡ by * self.counting.pace }
        ensures bound { result < 2 ^ 100 }
    {
        by as u128 * self.pace as u128
    }

    /// The clock after so much true time, unless it would then show more than the highest number.
    pub fn passed(self, by: u64) -> Option<Clock>
        ensures { MatchOption result (highest < shown (turn (pass by) self.counting)) (λ x. x ≡ turned (pass by) self) }
    {
        let counted = self.counted + self.gain(by);
        if counted >= LIMIT {
            return None;
        }
        Some(Clock { counted, ..self })
    }

    /// The clock that runs so from now on, unless that is above its rate.
    pub fn drifting(self, drift: Drift) -> Option<Clock>
        ensures { MatchOption result (self.rate < parts_of drift) (λ x. x ≡ turned (change (pace_of drift)) self) }
    {
        if drift.parts() > self.rate.parts() {
            return None;
        }
        let pace = match drift {
            Drift::Fast(parts) => MILLION + parts,
            Drift::Slow(parts) => MILLION - parts,
        };
        Some(Clock { pace, ..self })
    }
}

/// The theorem on clocks that count.
#[tactic(auto, using(crate::proofs::Counts::counting_runs_lem))]
pub fn counting_runs()
    ensures { CountingRuns }
{}
