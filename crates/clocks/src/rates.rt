//! How far a clock may be off, and how much true time can then have gone by.
ghost use Rattle.std.specs.Prelude.{◌≡◌, ℕ, ◌<◌, ◌≤◌, MatchOption};
ghost use Rattle.clocks.specs.Time.{most, least};

use std::marker::Model;

/// How many parts a rate counts in.
pub const MILLION: u64 = 1_000_000;

/// A clock's error, in parts in a million: at most 1,000. Over t of true time such a clock counts at least t - t · parts / 1,000,000 - 1
/// and at most t + t · parts / 1,000,000 + 1.
#[derive(Clone, Copy, PartialEq, Eq, Debug)]
pub struct Rate {
    parts: u64,
}

// In contracts a rate is its number of parts.
impl Model for Rate {
    ghost Value = { ℕ };

    ghost view = { λ r. r.parts };

    ghost invariant = { λ r. r.parts ≤ 1000 };

    ghost inverse = { λ n. record { parts = n } };
}

impl Rate {
    /// A rate of so many parts in a million, unless that is above 1,000.
    pub fn new(parts: u64) -> Option<Rate>
        ensures { MatchOption result (1000 < parts) (λ x. x ≡ parts) }
    {
        if parts > 1000 {
            return None;
        }
        Some(Rate { parts })
    }

    pub fn parts(self) -> u64
        ensures value { result ≡ self }
        ensures bound { result ≤ 1000 }
    {
        self.parts
    }

    /// The most true time that can have gone by while the clock went on by `shown`.
    pub fn most(self, shown: u64) -> u128
        ensures { result ≡ most self shown }
    {
        (shown as u128 + 1) * MILLION as u128 / (MILLION - self.parts) as u128 + 1
    }

    /// The least.
    pub fn least(self, shown: u64) -> u128
        ensures { result ≡ least self shown }
    {
        shown.saturating_sub(1) as u128 * MILLION as u128 / (MILLION + self.parts) as u128
    }
}
