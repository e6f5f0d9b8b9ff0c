//! How a span grows while a clock goes on.
ghost use Rattle.std.specs.Prelude.{◌≡◌, ◌+◌, min};
ghost use Rattle.clocks.specs.Time.{highest, grown_to, covers, GrowthHolds, CanRun};

use crate::rates::Rate;

/// The highest time, and the highest clock reading.
pub const HIGHEST: u64 = u64::MAX;

/// Between which two numbers the true time lies, both included (the interval of the literature on clocks).
#[derive(Clone, Copy, PartialEq, Eq, Debug)]
pub struct Span {
    pub low: u64,
    pub high: u64,
}

/// An answer of a time server: its span, what the clock showed at the ask that it answers, and what it showed when it came.
#[derive(Clone, Copy, PartialEq, Eq, Debug)]
pub struct Answer {
    pub asked: u64,
    pub answered: u64,
    pub span: Span,
}

// An end raised by so much; what would pass the highest number stays there.
fn raised(end: u64, by: u128) -> u64
    ensures { result ≡ min (end + by) highest }
{
    end.saturating_add(u64::try_from(by).unwrap_or(HIGHEST))
}

impl Answer {
    /// What its span has grown to at a later clock reading. The upper end grows from the ask on, since the true time may have been the
    /// span's at any moment from then on; the lower end grows from the answer on.
    pub fn grown(self, rate: Rate, clock: u64) -> Span
        ensures { result ≡ grown_to rate self.asked self.answered clock self.span }
    {
        let Answer {
            asked,
            answered,
            span,
        } = self;
        Span {
            low: raised(span.low, rate.least(clock.saturating_sub(answered))),
            high: raised(span.high, rate.most(clock.saturating_sub(asked))),
        }
    }
}

impl Span {
    /// Does a time lie in the span?
    pub fn covers(self, time: u64) -> bool
        ensures { result ≡ covers time self }
    {
        (self.low..=self.high).contains(&time)
    }
}

/// The theorem on growth.
#[tactic(auto, using(crate::proofs::Grows::growth_holds_lem))]
pub fn growth_holds()
    ensures { GrowthHolds }
{}

/// Its premise can be met, by a clock that began to count when its machine came up.
#[tactic(auto, using(crate::proofs::Grows::can_run_lem))]
pub fn can_run()
    ensures { CanRun }
{}
