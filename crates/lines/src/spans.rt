//! The lines of the program that works out the span of one machine.
ghost use Rattle.std.specs.Prelude.{◌≡◌};
ghost use Rattle.lines.specs.Spans.{SpanFits, SpansReadBack, answer_of, asked_of, now_of, span_request, span_words};
ghost use Rattle.lines.specs.SpanLaws.{span_laws};

use super::{Request, requests_read_back};
use clocks::growth::Span;
use words::Words;

/// A request to the program that works out the span of one machine.
#[derive(Clone, Copy, PartialEq, Eq, Debug)]
pub enum SpanRequest {
    Asked { server: u64, clock: u64 },
    Answer { server: u64, clock: u64, span: Span },
    Now { clock: u64 },
}

impl Request for SpanRequest {
    ghost written = { span_words };

    ghost fits = { SpanFits };

    ghost request_of = { span_request };

    ghost laws = { span_laws };

    fn read(mut words: Words<'_>) -> Option<SpanRequest> {
        match words.next()? {
            b"asked" => asked(words),
            b"answer" => answer(words),
            b"now" => now(words),
            _ => None,
        }
    }
}

fn asked(words: Words<'_>) -> Option<SpanRequest>
    ensures { result ≡ asked_of words.entry }
{
    let [server, clock] = words.numbers::<2>()?;
    Some(SpanRequest::Asked { server, clock })
}

fn answer(words: Words<'_>) -> Option<SpanRequest>
    ensures { result ≡ answer_of words.entry }
{
    let [server, clock, low, high] = words.numbers::<4>()?;
    let span = Span { low, high };
    Some(SpanRequest::Answer {
        server,
        clock,
        span,
    })
}

fn now(words: Words<'_>) -> Option<SpanRequest>
    ensures { result ≡ now_of words.entry }
{
    let [clock] = words.numbers::<1>()?;
    Some(SpanRequest::Now { clock })
}

/// Carries the law that the line of every request reads back as that request.
pub fn spans_read_back()
    ensures { SpansReadBack }
{
    requests_read_back::<SpanRequest>();
}
