//! Answers, and the lines that they are written as.
//!
//! What is said is `ok`, a refusal `number N` or a span `span L U`. It stands alone, or behind the true time, a colon and a space, and
//! then a machine's number and a space where it is a machine that answers; a newline ends the line.
//!
//! No call asks anything of its caller. One that writes appends exactly the bytes that the definitions in `specs/` say, or leaves `out`
//! as it was where memory is wanting. Each answer is one line, and its words read back as the answer that they were written from.
//!
//! What is written of an answer is its `Display`.
#![tactic(auto)]

ghost use Rattle.std.specs.Prelude.{◌≡◌, ℕ, ◌≤◌, List, [], ◌++◌, take, is_ok, if◌then◌else◌, Some, IfSome, decimal};
ghost use Rattle.answers.specs.Answers.{reply_words, said_words, spoken};
ghost use Rattle.answers.specs.Hears.{ReadsBack};
ghost use Rattle.words.specs.Numbers.{number_of};
ghost use Rattle.words.specs.Words.{joined};

use clocks::growth::Span;
use std::alloc::AllocError;
use std::fmt;
use std::fmt::Write;
use std::marker::Model;

/// What is said in answer to a request.
#[derive(Clone, Copy, PartialEq, Eq, Debug)]
pub enum Said {
    Ok,
    // any number: a line can hold each, and refusals are enums of the crates that refuse
    Number(u64),
    Span(Span),
}

/// An answer: what is said alone, or behind a true time, or behind a true time and a machine's number.
#[derive(Clone, Copy, PartialEq, Eq, Debug)]
pub enum Reply {
    Plain { said: Said },
    World { time: u64, said: Said },
    Machine { time: u64, machine: u64, said: Said },
}

impl Said {
    /// What a refusal of this number is answered by.
    pub fn refused(number: u8) -> Said
        ensures { result ≡ Said.Number number }
    {
        Said::Number(u64::from(number))
    }
}

impl fmt::Display for Said {
    ghost output = { λ said. Some (joined (said_words said)) };

    fn fmt<W: fmt::Write>(&self, f: &mut fmt::Formatter<W>) -> fmt::Result {
        match *self {
            Said::Ok => write!(f, "ok"),
            Said::Number(n) => write!(f, "number {n}"),
            Said::Span(Span { low, high }) => write!(f, "span {low} {high}"),
        }
    }
}

impl fmt::Display for Reply {
    ghost output = { λ reply. Some (joined (reply_words reply)) };

    fn fmt<W: fmt::Write>(&self, f: &mut fmt::Formatter<W>) -> fmt::Result {
        match *self {
            Reply::Plain { said } => write!(f, "{said}"),
            Reply::World { time, said } => write!(f, "{time}: {said}"),
            Reply::Machine {
                time,
                machine,
                said,
            } => write!(f, "{time}: {machine} {said}"),
        }
    }
}

// Room for the longest answer: four numbers of 20 digits, `span`, a colon, four spaces and a newline are 90 bytes.
const LINE: usize = 96;

// A text that is being made, on the stack, so that nothing but what it is appended to wants memory.
#[derive(Drop)]
struct Line {
    bytes: [u8; LINE],
    len: usize,
}

// In contracts it is what was written so far.
impl Model for Line {
    ghost Value = { List ℕ };

    ghost view = { λ line. take line.len line.bytes };

    ghost invariant = { λ line. line.len ≤ 96 };
}

impl Line {
    fn new() -> Line
        ensures { result ≡ [] }
    {
        Line {
            bytes: [0; LINE],
            len: 0,
        }
    }

    fn as_bytes(&self) -> &[u8]
        ensures { result.now ≡ self.now }
    {
        &self.bytes[..self.len]
    }
}

impl fmt::Write for Line {
    ghost write_str_gives = { λ line text after. after ≡ line ++ text };

    fn write_str(&mut self, text: &str) -> fmt::Result {
        let end = self.len + text.len();
        if end > LINE {
            return Err(fmt::Error);
        }
        self.bytes[self.len..end].copy_from_slice(text.as_bytes());
        self.len = end;
        Ok(())
    }
}

// Appends what a value is printed as: made first and appended whole, since no contract says what a `write!` that fails leaves behind.
fn put<D: fmt::Display>(out: &mut Vec<u8>, value: &D) -> Result<(), AllocError>
    ensures { IfSome (D.output value.now) (λ text. out.new.items ≡ (if is_ok result then out.old.items ++ text else out.old.items)) }
{
    let mut line = Line::new();
    match line.write(value) {
        Ok(()) => out.extend_from_slice(line.as_bytes()),
        // longer than any answer is, which no contract says
        Err(fmt::Error) => {
            let text = format!(in *out.allocator(); "{value}")?;
            out.extend_from_slice(text.as_bytes())
        }
    }
}

/// Appends a number in decimal, with no zeros in front. Where memory is wanting, `out` is as it was.
#[tactic(auto, using(words::proofs::Writes::numbers_read_back_lem))]
pub fn put_number(out: &mut Vec<u8>, n: u64) -> Result<(), AllocError>
    ensures items { out.new.items ≡ (if is_ok result then out.old.items ++ decimal n else out.old.items) }
    ensures reads { number_of (decimal n) ≡ Some n }
{
    put(out, &n)
}

/// Appends a word. Where memory is wanting, `out` is as it was.
pub fn put_word(out: &mut Vec<u8>, word: &[u8]) -> Result<(), AllocError>
    ensures { out.new.items ≡ (if is_ok result then out.old.items ++ word.now else out.old.items) }
{
    out.extend_from_slice(word)
}

/// Appends the line of an answer, with the newline that ends it. Where memory is wanting, `out` is as it was.
#[tactic(auto, using(crate::proofs::Heard::reads_back))]
pub fn put_reply(out: &mut Vec<u8>, reply: Reply) -> Result<(), AllocError>
    ensures items { out.new.items ≡ (if is_ok result then out.old.items ++ spoken reply else out.old.items) }
    ensures reads { ReadsBack reply }
{
    put(out, &format_args!("{reply}\n"))
}

#[cfg(test)]
mod tests {
    use super::*;
    use std::test::Fail;

    #[test]
    fn lines(rt: HostRuntime) -> Result<(), Fail> {
        let mut out = Vec::new(rt.alloc());
        put_reply(&mut out, Reply::Plain { said: Said::Ok })?;
        put_reply(
            &mut out,
            Reply::World {
                time: 0,
                said: Said::Number(1),
            },
        )?;
        let said = Said::Span(Span {
            low: 4997,
            high: 18446744073709551615,
        });
        put_reply(
            &mut out,
            Reply::Machine {
                time: 5000,
                machine: 0,
                said,
            },
        )?;
        assert!(rt;
            out.as_slice()
                == b"ok\n0: number 1\n5000: 0 span 4997 18446744073709551615\n".as_slice()
        );
        Ok(())
    }

    #[test]
    fn the_longest_line(rt: HostRuntime) -> Result<(), Fail> {
        let mut out = Vec::new(rt.alloc());
        let most = 18446744073709551615;
        put_reply(
            &mut out,
            Reply::Machine {
                time: most,
                machine: most,
                said: Said::Span(Span {
                    low: most,
                    high: most,
                }),
            },
        )?;
        assert!(rt;
            out.as_slice()
                == b"18446744073709551615: 18446744073709551615 span 18446744073709551615 18446744073709551615\n".as_slice()
        );
        Ok(())
    }

    // A text for which a `Line` has no room is appended whole, too.
    #[test]
    fn a_longer_text(rt: HostRuntime) -> Result<(), Fail> {
        let mut out = Vec::new(rt.alloc());
        put_number(&mut out, 70)?;
        let text =
            "0123456789012345678901234567890123456789012345678901234567890123456789012345678901234567890123456789";
        put(&mut out, &text)?;
        assert!(rt; out.len() == 102);
        assert!(rt; out.ends_with(text.as_bytes()));
        Ok(())
    }
}
