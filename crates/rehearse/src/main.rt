//! `rehearse`: plays a script with up to four machines, their clocks and their time servers.
//!
//! Reads the script on standard input and answers each line on standard output; `--help` has an example. What a line is comes from
//! `lines`, what happens in a world from `world`, and what a clock shows from `clocks`: here is only which call a request makes.
#![tactic(auto)]

use answers::put_reply;
use anyhow::ensure;
use console::{Program, arguments, report, serve};
use std::alloc::AllocError;
use std::process::ExitCode;

mod rehearsal;
mod script;

use script::Script;

const USAGE: &str = "usage: rehearse < SCRIPT

Plays a script with up to four machines, their clocks and their time servers, and answers
each line with one line: the true time, a colon, and what came of it.

  world N M F RATE     N machines (1 to 4), each going by M time servers (1 to 16), of which
                       at most F are faulty (2F below M), with clocks that are off by at most
                       RATE parts in a million (at most 1000); the true time is 0
  pass D               the true time goes on by D
  clock H fast P       the clock of machine H runs P parts in a million fast from now on
  clock H slow P       .. or slow
  ask H T              machine H asks time server T
  answer H T L U       time server T answers machine H with L to U
  honest H T A B       .. with the true time less A to the true time plus B
  span H               the span of machine H

A request that is refused is answered by `number N` and changes nothing. For example

  printf 'world 1 1 0 0\\npass 50\\nask 0 0\\nhonest 0 0 5 5\\nspan 0\\n' | target/bin/rehearse

answers 0: ok, 50: ok, 50: 0 ok, 50: 0 ok and 50: 0 span 45 57.";

const MISUSED: &str = "expected no arguments, and a script on standard input; see rehearse --help";

impl Program for Script {
    fn answer(&mut self, line: &[u8], out: &mut Vec<u8>) -> Result<(), AllocError> {
        match self.hear(line) {
            Some(reply) => put_reply(out, reply),
            None => Ok(()),
        }
    }
}

fn run(rt: &HostRuntime) -> anyhow::Result<()> {
    let Some(args) = arguments(rt, USAGE)? else {
        return Ok(());
    };
    ensure!(args.is_empty(), MISUSED);
    let mut script = Script::new(rt.alloc());
    serve(rt.alloc(), rt.stdin(), &mut rt.stdout(), &mut script)
}

// `report` has said what went wrong, so `main` returns the status alone: a returned error would be printed a second time.
fn main(rt: HostRuntime) -> ExitCode {
    report(&rt, "rehearse", &run(&rt))
}
