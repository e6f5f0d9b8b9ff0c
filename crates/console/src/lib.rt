//! What the programs share: arguments and lines in, answers out.
//!
//! A program answers one line at a time. Its answers are written before anything more is read, so that whoever waits for an answer
//! gets it; while whole lines are at hand already, they are answered together.
//!
//! No contract here says what is read or written: the programs' runs on stored input show that. The contracts say what a line is without
//! its newline, that arguments which ask for help are not handed on, and which status `report` has a program end with.
#![tactic(auto)]

ghost use Rattle.std.specs.Prelude.{◌≡◌, ◌↔◌, IsTrue, IfOk, IfSome, is_ok, if◌then◌else◌};
ghost use Rattle.std.specs.Io.BufRead.{strip_last};
ghost use Rattle.console.specs.Arguments.{AsksForHelp};

use anyhow::anyhow;
use std::alloc::{AllocError, Global};
use std::env;
use std::io::{BufRead, BufReader, Read, Write};
use std::process::ExitCode;

/// A program that answers lines.
pub trait Program {
    /// Answers a line, which comes without its newline, by appending to `out`.
    fn answer(&mut self, line: &[u8], out: &mut Vec<u8>) -> Result<(), AllocError>;
}

fn asks_for_help(args: &[String]) -> bool
    ensures { IsTrue result ↔ AsksForHelp args.now }
{
    args.first().is_some_and(|word| word.as_str() == "--help")
}

/// The arguments of a program. If they ask for help, it is given, by printing `usage`, and there is nothing left to do.
pub fn arguments(rt: &HostRuntime, usage: &str) -> anyhow::Result<Option<Vec<String>>>
    ensures { IfOk result (λ left. IfSome left (λ args. ¬ (AsksForHelp args.items))) }
{
    let args: Vec<String> = env::args(rt)?.skip(1).collect(rt.alloc())?;
    if asks_for_help(&args) {
        println!(rt; "{usage}")?;
        return Ok(None);
    }
    Ok(Some(args))
}

// A line without the newline that ends it, if one does.
fn trimmed(line: &[u8]) -> &[u8]
    ensures { result.now ≡ strip_last 10 line.now }
{
    line.strip_suffix(b"\n").unwrap_or(line)
}

/// Answers the lines of an input, to its end.
pub fn serve<R: Read + Drop, W: Write, P: Program>(
    heap: Global,
    input: R,
    output: &mut W,
    program: &mut P,
) -> anyhow::Result<()> {
    let mut input = BufReader::new(heap, input)?;
    let mut line = Vec::new(heap);
    let mut out = Vec::new(heap);
    // The bound is one that no input reaches, since every loop has to end. `input.split(..)` would hold `input`, whose buffer tells
    // whether a whole line is at hand.
    for _ in 0..u64::MAX {
        line.clear();
        let read = input
            .read_until(b'\n', &mut line)
            .map_err(|error| anyhow!("the input cannot be read: {error}"))?;
        if read == 0 {
            break;
        }
        program.answer(trimmed(line.as_slice()), &mut out)?;
        if !input.buffer().contains(&b'\n') {
            output
                .write_all(out.as_slice())
                .map_err(|error| anyhow!("the answers cannot be written: {error}"))?;
            out.clear();
        }
    }
    Ok(())
}

/// The status that a program ends with. What went wrong, if anything did, is said first, in one sentence on standard error; `ended` stays
/// with the caller.
pub fn report(rt: &HostRuntime, program: &str, ended: &anyhow::Result<()>) -> ExitCode
    ensures { result ≡ (if is_ok ended.now then ExitCode.SUCCESS else ExitCode.FAILURE) }
{
    match ended {
        Ok(()) => ExitCode::SUCCESS,
        Err(wrong) => {
            // where nobody takes what is said, the status still tells
            let _ = eprintln!(rt; "{program}: {wrong}");
            ExitCode::FAILURE
        }
    }
}

#[cfg(test)]
mod tests {
    use super::*;
    use std::process::Abort;
    use std::test::Fail;

    // Answers each line by its length, in stars, and a newline.
    #[derive(Drop)]
    struct Stars;

    impl Program for Stars {
        fn answer(&mut self, line: &[u8], out: &mut Vec<u8>) -> Result<(), AllocError> {
            for _ in line {
                out.push(b'*')?;
            }
            out.push(b'\n')?;
            Ok(())
        }
    }

    fn answered(rt: &impl Abort, heap: Global, text: &[u8], expected: &[u8]) -> Result<(), Fail> {
        let mut out = Vec::new(heap);
        serve(heap, text, &mut out, &mut Stars)?;
        assert!(rt; out.as_slice() == expected);
        Ok(())
    }

    #[test]
    fn arguments_are_handed_on(rt: HostRuntime) -> Result<(), Fail> {
        assert!(rt; arguments(&rt, "usage")?.is_some());
        Ok(())
    }

    #[test]
    fn lines_and_their_ends(rt: HostRuntime) -> Result<(), Fail> {
        let heap = rt.alloc();
        answered(&rt, heap, b"", b"")?;
        answered(&rt, heap, b"\n", b"\n")?;
        answered(&rt, heap, b"abc", b"***\n")?;
        answered(&rt, heap, b"abc\n", b"***\n")?;
        answered(&rt, heap, b"\xff\x00\n\nb\r\nc", b"**\n\n**\n*\n")
    }
}
