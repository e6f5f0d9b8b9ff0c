//! The ends of spans that lie in enough of the spans.
ghost use Rattle.std.specs.Prelude.{◌≡◌, min, max};
ghost use Rattle.votes.specs.Counts.{count, end_step, low_end, high_end, lowest, highest};

use clocks::growth::Span;

// How many of the spans a time lies in.
fn count(spans: &[Option<Span>], time: u64) -> usize
    ensures { result ≡ count time spans.now }
{
    // not `filter` and `count`, which branch at each span: how many a time lies in is hard to foresee
    let mut votes: usize = 0;
    for span in spans {
        if span.is_some_and(|span| span.covers(time)) {
            votes += 1;
        }
    }
    votes
}

// The lowest lower end and the highest upper end found so far.
#[derive(Clone, Copy)]
pub(crate) struct Ends {
    pub low: Option<u64>,
    pub high: Option<u64>,
}

impl Ends {
    // With one more span's ends, if they lie in enough of all the spans.
    fn with(self, spans: &[Option<Span>], enough: usize, span: Option<Span>) -> Ends
        ensures low { result.low ≡ end_step low_end min enough spans.now self.low span }
        ensures high { result.high ≡ end_step high_end max enough spans.now self.high span }
    {
        let Some(Span { low, high }) = span else {
            return self;
        };
        let mut ends = self;
        if count(spans, low) >= enough {
            ends.low = Some(self.low.map_or(low, |best| best.min(low)));
        }
        if count(spans, high) >= enough {
            ends.high = Some(self.high.map_or(high, |best| best.max(high)));
        }
        ends
    }
}

// The lowest of the lower ends, and the highest of the upper ends, that lie in at least so many of the spans: a loop over the ends with
// a count of the spans that each lies in, as the rule is told.
pub(crate) fn outermost(spans: &[Option<Span>], enough: usize) -> Ends
    ensures low { result.low ≡ lowest enough spans.now }
    ensures high { result.high ≡ highest enough spans.now }
{
    let mut found = Ends {
        low: None,
        high: None,
    };
    for span in spans {
        found = found.with(spans, enough, *span);
    }
    found
}
