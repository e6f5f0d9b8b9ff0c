//! The lines of the program that plays a script.
ghost use Rattle.std.specs.Prelude.{◌≡◌};
ghost use Rattle.lines.specs.Scripts.{ScriptFits, ScriptsReadBack, answer_of, ask_of, clock_of, drift_of, honest_of, pass_of, script_request, script_words, span_of, world_of};
ghost use Rattle.lines.specs.ScriptLaws.{script_laws};

use super::{Request, requests_read_back};
use clocks::counting::Drift;
use clocks::growth::Span;
use words::Words;

/// A request to the program that plays a script.
// A machine and its time server are numbers of their own, and no struct, since each is looked up apart.
#[derive(Clone, Copy, PartialEq, Eq, Debug)]
pub enum ScriptRequest {
    World {
        machines: u64,
        servers: u64,
        faulty: u64,
        rate: u64,
    },
    Pass {
        by: u64,
    },
    Clock {
        machine: u64,
        drift: Drift,
    },
    Ask {
        machine: u64,
        server: u64,
    },
    Answer {
        machine: u64,
        server: u64,
        span: Span,
    },
    Honest {
        machine: u64,
        server: u64,
        less: u64,
        more: u64,
    },
    Span {
        machine: u64,
    },
}

impl Request for ScriptRequest {
    ghost written = { script_words };

    ghost fits = { ScriptFits };

    ghost request_of = { script_request };

    ghost laws = { script_laws };

    fn read(mut words: Words<'_>) -> Option<ScriptRequest> {
        match words.next()? {
            b"world" => world(words),
            b"pass" => pass(words),
            b"clock" => clock(words),
            b"ask" => ask(words),
            b"answer" => answer(words),
            b"honest" => honest(words),
            b"span" => span(words),
            _ => None,
        }
    }
}

fn world(words: Words<'_>) -> Option<ScriptRequest>
    ensures { result ≡ world_of words.entry }
{
    let [machines, servers, faulty, rate] = words.numbers::<4>()?;
    Some(ScriptRequest::World {
        machines,
        servers,
        faulty,
        rate,
    })
}

fn pass(words: Words<'_>) -> Option<ScriptRequest>
    ensures { result ≡ pass_of words.entry }
{
    let [by] = words.numbers::<1>()?;
    Some(ScriptRequest::Pass { by })
}

// How a clock is to run, by the word for it and so many parts in a million.
fn drift(way: &[u8], parts: u64) -> Option<Drift>
    ensures { result ≡ drift_of way.now parts }
{
    match way {
        b"fast" => Some(Drift::Fast(parts)),
        b"slow" => Some(Drift::Slow(parts)),
        _ => None,
    }
}

fn clock(mut words: Words<'_>) -> Option<ScriptRequest>
    ensures { result ≡ clock_of words.entry }
{
    let machine = words.next_number()?;
    let way = words.next()?;
    let [parts] = words.numbers::<1>()?;
    let drift = drift(way, parts)?;
    Some(ScriptRequest::Clock { machine, drift })
}

fn ask(words: Words<'_>) -> Option<ScriptRequest>
    ensures { result ≡ ask_of words.entry }
{
    let [machine, server] = words.numbers::<2>()?;
    Some(ScriptRequest::Ask { machine, server })
}

fn answer(words: Words<'_>) -> Option<ScriptRequest>
    ensures { result ≡ answer_of words.entry }
{
    let [machine, server, low, high] = words.numbers::<4>()?;
    let span = Span { low, high };
    Some(ScriptRequest::Answer {
        machine,
        server,
        span,
    })
}

fn honest(words: Words<'_>) -> Option<ScriptRequest>
    ensures { result ≡ honest_of words.entry }
{
    let [machine, server, less, more] = words.numbers::<4>()?;
    Some(ScriptRequest::Honest {
        machine,
        server,
        less,
        more,
    })
}

fn span(words: Words<'_>) -> Option<ScriptRequest>
    ensures { result ≡ span_of words.entry }
{
    let [machine] = words.numbers::<1>()?;
    Some(ScriptRequest::Span { machine })
}

/// Carries the law that the line of every request reads back as that request.
pub fn scripts_read_back()
    ensures { ScriptsReadBack }
{
    requests_read_back::<ScriptRequest>();
}
