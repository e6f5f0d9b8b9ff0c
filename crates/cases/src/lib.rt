//! Worked cases: scripts, and what must come of them.
//!
//! One table, `plays`, has them all. It is the table of specs/Table, about which one theorem says that every row comes out by the definitions
//! that the contracts of `world` cite; the test runs the same table on the code.
#![tactic(auto)]

ghost use Rattle.std.specs.Prelude.{◌≡◌};
ghost use Rattle.cases.specs.Met.{PremisesMet};
ghost use Rattle.cases.specs.Table.{all_cases, setup_of, plays_of, EveryRow};

use clocks::growth::Span;
use votes::types::{Refusal, Setup};
use world::actions::{Action, Input, Reply};

/// The cases, each played with one machine. An enum, and no array of rows, since the theorem about them goes case by case.
#[derive(Clone, Copy, PartialEq, Eq, Debug)]
pub enum Case {
    /// one time server, asked at 100 and answered at 140 with 5,000 to 5,010: at 200 the span is 5,059 to 5,112
    A,
    /// three time servers of which one may be faulty, whose spans have grown to 10 to 20, 15 to 30 and 90 to 95: the span is 15 to 20
    B,
    /// an answer stays when its server is asked again, and goes on growing from the ask that it answered
    Stays,
    /// numbers of asks wrap, and only the last one's is taken
    Wraps,
    /// refusals of each number: no answers, a server that is not there, one that was never asked, readings that go back, ends out of order
    Refuses,
    /// readings, spans and the true time at 0 and at the highest number
    Ends,
}

/// One action, and the reply that must come of it.
#[derive(Clone, Copy, PartialEq, Eq, Debug)]
pub struct Play {
    pub action: Action,
    pub reply: Result<Reply, Refusal>,
}

static A: [Play; 3] = [
    Play {
        action: Action::Input(0, 100, Input::Ask(0)),
        reply: Ok(Reply::Asked(1)),
    },
    Play {
        action: Action::Input(
            0,
            140,
            Input::Answer(
                0,
                1,
                Span {
                    low: 5000,
                    high: 5010,
                },
            ),
        ),
        reply: Ok(Reply::Taken),
    },
    Play {
        action: Action::Input(0, 200, Input::Span),
        reply: Ok(Reply::Span(Span {
            low: 5059,
            high: 5112,
        })),
    },
];

// A span grows by 2 at its upper end when it is asked for at the reading of the ask.
static B: [Play; 7] = [
    Play {
        action: Action::Input(0, 0, Input::Ask(0)),
        reply: Ok(Reply::Asked(1)),
    },
    Play {
        action: Action::Input(0, 0, Input::Ask(1)),
        reply: Ok(Reply::Asked(1)),
    },
    Play {
        action: Action::Input(0, 0, Input::Ask(2)),
        reply: Ok(Reply::Asked(1)),
    },
    Play {
        action: Action::Input(0, 0, Input::Answer(0, 1, Span { low: 10, high: 18 })),
        reply: Ok(Reply::Taken),
    },
    Play {
        action: Action::Input(0, 0, Input::Answer(1, 1, Span { low: 15, high: 28 })),
        reply: Ok(Reply::Taken),
    },
    Play {
        action: Action::Input(0, 0, Input::Answer(2, 1, Span { low: 90, high: 93 })),
        reply: Ok(Reply::Taken),
    },
    Play {
        action: Action::Input(0, 0, Input::Span),
        reply: Ok(Reply::Span(Span { low: 15, high: 20 })),
    },
];

static STAYS: [Play; 4] = [
    Play {
        action: Action::Input(0, 100, Input::Ask(0)),
        reply: Ok(Reply::Asked(1)),
    },
    Play {
        action: Action::Input(
            0,
            140,
            Input::Answer(
                0,
                1,
                Span {
                    low: 5000,
                    high: 5010,
                },
            ),
        ),
        reply: Ok(Reply::Taken),
    },
    Play {
        action: Action::Input(0, 150, Input::Ask(0)),
        reply: Ok(Reply::Asked(2)),
    },
    Play {
        action: Action::Input(0, 200, Input::Span),
        reply: Ok(Reply::Span(Span {
            low: 5059,
            high: 5112,
        })),
    },
];

static WRAPS: [Play; 4] = [
    Play {
        action: Action::Input(0, 0, Input::Ask(0)),
        reply: Ok(Reply::Asked(4294967295)),
    },
    Play {
        action: Action::Input(0, 0, Input::Ask(0)),
        reply: Ok(Reply::Asked(0)),
    },
    Play {
        action: Action::Input(0, 5, Input::Answer(0, 4294967295, Span { low: 1, high: 2 })),
        reply: Err(Refusal::WrongNumber),
    },
    Play {
        action: Action::Input(0, 5, Input::Answer(0, 0, Span { low: 1, high: 2 })),
        reply: Ok(Reply::Taken),
    },
];

static REFUSES: [Play; 9] = [
    Play {
        action: Action::Input(0, 10, Input::Span),
        reply: Err(Refusal::NoSpan),
    },
    Play {
        action: Action::Input(0, 10, Input::Ask(2)),
        reply: Err(Refusal::Invalid),
    },
    Play {
        action: Action::Input(0, 10, Input::Answer(0, 1, Span { low: 1, high: 2 })),
        reply: Err(Refusal::WrongNumber),
    },
    Play {
        action: Action::Input(0, 10, Input::Ask(0)),
        reply: Ok(Reply::Asked(1)),
    },
    Play {
        action: Action::Input(0, 9, Input::Ask(0)),
        reply: Err(Refusal::Invalid),
    },
    Play {
        action: Action::Input(0, 10, Input::Answer(0, 1, Span { low: 7, high: 6 })),
        reply: Err(Refusal::Invalid),
    },
    Play {
        action: Action::Input(0, 9, Input::Span),
        reply: Err(Refusal::Invalid),
    },
    Play {
        action: Action::Input(0, 10, Input::Answer(0, 1, Span { low: 7, high: 7 })),
        reply: Ok(Reply::Taken),
    },
    Play {
        action: Action::Input(0, 10, Input::Span),
        reply: Err(Refusal::NoSpan),
    },
];

static ENDS: [Play; 9] = [
    Play {
        action: Action::Input(0, 0, Input::Ask(0)),
        reply: Ok(Reply::Asked(1)),
    },
    Play {
        action: Action::Input(0, 0, Input::Answer(0, 1, Span { low: 0, high: 0 })),
        reply: Ok(Reply::Taken),
    },
    Play {
        action: Action::Input(0, 0, Input::Span),
        reply: Ok(Reply::Span(Span { low: 0, high: 2 })),
    },
    Play {
        action: Action::Input(
            0,
            18446744073709551615,
            Input::Answer(
                0,
                1,
                Span {
                    low: 0,
                    high: 18446744073709551615,
                },
            ),
        ),
        reply: Ok(Reply::Taken),
    },
    Play {
        action: Action::Input(0, 18446744073709551615, Input::Span),
        reply: Ok(Reply::Span(Span {
            low: 0,
            high: 18446744073709551615,
        })),
    },
    Play {
        action: Action::Input(
            0,
            18446744073709551615,
            Input::Answer(
                0,
                1,
                Span {
                    low: 18446744073709551615,
                    high: 18446744073709551615,
                },
            ),
        ),
        reply: Ok(Reply::Taken),
    },
    Play {
        action: Action::Input(0, 18446744073709551615, Input::Span),
        reply: Ok(Reply::Span(Span {
            low: 18446744073709551615,
            high: 18446744073709551615,
        })),
    },
    Play {
        action: Action::Pass(18446744073709551615),
        reply: Ok(Reply::Passed),
    },
    Play {
        action: Action::Pass(1),
        reply: Err(Refusal::Invalid),
    },
];

/// The rows of the table, in order.
pub fn rows() -> [Case; 6]
    ensures { result ≡ all_cases }
{
    [
        Case::A,
        Case::B,
        Case::Stays,
        Case::Wraps,
        Case::Refuses,
        Case::Ends,
    ]
}

/// The machine that a case is played with.
pub fn setup(case: Case) -> Setup
    ensures { result ≡ setup_of case }
{
    match case {
        Case::A | Case::Stays => Setup::numbered(1, 0, 0),
        Case::B => Setup::numbered(3, 1, 0),
        Case::Wraps => Setup {
            first: 4294967295,
            ..Setup::numbered(1, 0, 0)
        },
        Case::Refuses => Setup::numbered(2, 0, 1000),
        Case::Ends => Setup::numbered(1, 0, 1000),
    }
}

/// A row of the table.
pub fn plays(case: Case) -> &'static [Play]
    ensures { result.now ≡ plays_of case }
{
    match case {
        Case::A => &A,
        Case::B => &B,
        Case::Stays => &STAYS,
        Case::Wraps => &WRAPS,
        Case::Refuses => &REFUSES,
        Case::Ends => &ENDS,
    }
}

/// The theorem about every row.
pub fn every_row()
    ensures { EveryRow }
{}

/// The premises of the promise about spans can be met, with a clock that is off and a time server that lies.
#[tactic(auto, using(crate::proofs::Meets::premises_met_lem))]
pub fn premises_met()
    ensures { PremisesMet }
{}

#[cfg(test)]
mod tests {
    use super::*;
    use std::test::Fail;
    use world::types::World;

    #[test]
    fn rows_come_out(rt: HostRuntime) -> Result<(), Fail> {
        for case in rows() {
            let mut world = World::new(rt.alloc(), &[setup(case)])?;
            for play in plays(case) {
                assert_eq!(rt; world.play(play.action), play.reply);
            }
        }
        Ok(())
    }
}
