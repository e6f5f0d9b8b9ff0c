//! `span M F RATE`: the span of one machine, from its clock readings and its time servers' answers.
//!
//! Reads lines on standard input and answers each on standard output; `--help` has an example. What a line is comes from `lines`, what a
//! machine does from `votes`, and how an answer is written from `answers`: here is only which call a request makes (`respond`).
#![tactic(auto)]

ghost use Rattle.std.specs.Prelude.{◌≡◌, false, IfSome, MatchOption};
ghost use Rattle.votes.specs.Exchanges.{valid_setup, IsOpened};
ghost use Rattle.lines.specs.Lines.{line_by};
ghost use Rattle.lines.specs.Spans.{span_request};
ghost use Rattle.span.specs.Respond.{said_of, after_of, heard, heard_after};
ghost use Rattle.span.specs.Asked.{setup_asked, IsMadeFrom};

use answers::{Reply, Said, put_reply};
use anyhow::Context;
use console::{Program, arguments, report, serve};
use lines::{SpanRequest, Unreadable};
use std::alloc::AllocError;
use std::process::ExitCode;
use votes::types::{Refusal, Setup, Votes};
use words::number;

const USAGE: &str = "usage: span M F RATE

Works out the span of a machine that goes by M time servers (1 to 16), of which at most F
lie or haven't answered (2F below M), with a clock that is off by at most RATE parts in a
million (at most 1000). Reads lines on standard input and answers each with one line:

  asked H C         the machine asked time server H (0 to M-1) at clock C     ok
  answer H C L U    the answer L to U to the last ask of H came at clock C    ok
  now C             the span at clock C                                      span L U

A request that is refused is answered by `number N` and changes nothing. For example

  printf 'asked 0 100\\nanswer 0 140 5000 5010\\nnow 200\\n' | bin/span 1 0 0

answers ok, ok and span 5059 5112.";

const MISUSED: &str =
    "expected three numbers M F RATE, M from 1 to 16, 2F below M and RATE at most 1000; see span --help";

// Which call a request makes, and what is said of its answer.
fn respond(votes: &mut Votes, request: SpanRequest) -> Said
    ensures said { result ≡ said_of votes.old request }
    ensures after { votes.new ≡ after_of votes.old request }
{
    let said = match request {
        SpanRequest::Asked { server, clock } => {
            votes.ask(server as usize, clock).map(|_number| Said::Ok)
        }
        SpanRequest::Answer {
            server,
            clock,
            span,
        } => {
            let number = votes.last_ask(server as usize).unwrap_or(0);
            votes
                .answer(server as usize, number, span, clock)
                .map(|()| Said::Ok)
        }
        SpanRequest::Now { clock } => votes.span(clock).map(Said::Span),
    };
    said.unwrap_or_else(|refusal| Said::refused(refusal.number()))
}

#[derive(Drop)]
struct Machine {
    votes: Votes,
}

// What is said to a line, and nothing to one that is passed over.
fn hear(votes: &mut Votes, line: &[u8]) -> Option<Said>
    ensures said { result ≡ heard votes.old (line_by span_request line.now) }
    ensures after { votes.new ≡ heard_after votes.old (line_by span_request line.now) }
{
    match lines::read(line)? {
        Ok(request) => Some(respond(votes, request)),
        Err(Unreadable) => Some(Said::refused(Refusal::Invalid.number())),
    }
}

impl Program for Machine {
    fn answer(&mut self, line: &[u8], out: &mut Vec<u8>) -> Result<(), AllocError> {
        match hear(&mut self.votes, line) {
            Some(said) => put_reply(out, Reply::Plain { said }),
            None => Ok(()),
        }
    }
}

// A machine that has asked nobody yet, if its setup is in range.
fn made(setup: Setup) -> Option<Machine>
    ensures { MatchOption result (valid_setup setup ≡ false) (λ m. IsOpened setup m.votes) }
{
    let votes = Votes::new(setup)?;
    Some(Machine { votes })
}

// The machine that the arguments ask for, if they are three numbers in range.
fn asked_for(args: &[String]) -> Option<Machine>
    ensures { MatchOption result (IfSome (setup_asked args.now) (λ s. valid_setup s ≡ false)) (λ m. IsMadeFrom (setup_asked args.now) m.votes) }
{
    let [servers, faulty, rate] = args else {
        return None;
    };
    let setup = Setup::numbered(
        number(servers.as_bytes())?,
        number(faulty.as_bytes())?,
        number(rate.as_bytes())?,
    );
    made(setup)
}

fn run(rt: &HostRuntime) -> anyhow::Result<()> {
    let Some(args) = arguments(rt, USAGE)? else {
        return Ok(());
    };
    let mut machine = asked_for(&args).context(MISUSED)?;
    serve(rt.alloc(), rt.stdin(), &mut rt.stdout(), &mut machine)
}

// `report` has said what went wrong, so `main` returns the status alone: a returned error would be printed a second time.
fn main(rt: HostRuntime) -> ExitCode {
    report(&rt, "span", &run(&rt))
}
