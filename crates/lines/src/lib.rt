//! What the lines of the programs are read as.
//!
//! A line that is empty, or whose first byte is `#`, is passed over. Any other line is a keyword and exactly as many numbers as the
//! keyword asks for, apart by single spaces, or it is unreadable.
//!
//! Every line is read or refused, by calls that ask nothing of their caller. A line is read as a request exactly if its words are those
//! that the request is written as, up to zeros in front of its numbers, and it is unreadable only if that holds of no request. Every
//! request has a line that reads back as it.
//!
//! What a program is asked for is a type with the trait `Request`, whose laws each impl proves; what `read` and `requests_read_back`
//! promise is proved from them, once for all.
#![tactic(auto)]

ghost use Rattle.std.specs.Prelude.{◌≡◌, ℕ, List, Option};
ghost use Rattle.lines.specs.Lines.{ReadsBack, RequestLaws, Told, line_by, skipped};

pub mod scripts;
pub mod spans;

pub use scripts::ScriptRequest;
pub use spans::SpanRequest;
use words::Words;

/// A request that words are read as.
pub trait Request: Sized {
    // The words that a request is written as.
    ghost written: { Self → List (List ℕ) };

    // The numbers of a request are below 2 ^ 64.
    ghost fits: { Self → Type 0 };

    // The request that words are, if they are one.
    ghost request_of: { List (List ℕ) → Option Self };

    /// Reads the words of a line, if they are a request.
    fn read(words: Words<'_>) -> Option<Self>
        ensures { result ≡ request_of words.entry };

    // Words are read as the request that they are written as, and as no other.
    ghost laws: { RequestLaws written fits request_of };
}

/// A line that is no request.
#[derive(Clone, Copy, PartialEq, Eq, Debug)]
pub struct Unreadable;

// Whether a line is empty or a comment.
fn passed_over(line: &[u8]) -> bool
    ensures { result ≡ skipped line.now }
{
    matches!(line, [] | [b'#', ..])
}

/// The request that a line is, and nothing where it is passed over.
pub fn read<R: Request>(line: &[u8]) -> Option<Result<R, Unreadable>>
    ensures value { result ≡ line_by R.request_of line.now }
    ensures told { Told R.written R.fits line.now result }
{
    if passed_over(line) {
        return None;
    }
    Some(R::read(Words::of(line)).ok_or(Unreadable))
}

/// Carries the law that the line of every request reads back as that request.
pub fn requests_read_back<R: Request>()
    ensures { ReadsBack R.written R.fits (line_by R.request_of) }
{}

#[cfg(test)]
mod tests {
    use super::*;
    use clocks::counting::Drift;

    fn unreadable(line: &[u8]) -> bool {
        read::<SpanRequest>(line) == Some(Err(Unreadable))
    }

    // The clock reading of a `now` line.
    fn shown(line: &[u8]) -> Option<u64> {
        match read(line) {
            Some(Ok(SpanRequest::Now { clock })) => Some(clock),
            _ => None,
        }
    }

    #[test]
    fn words_amiss(rt: HostRuntime) {
        assert!(rt; unreadable(b"now"));
        assert!(rt; unreadable(b"now 1 2"));
        assert!(rt; unreadable(b"Now 1"));
        assert!(rt; unreadable(b"now -1"));
        assert!(rt; unreadable(b"now +1"));
        assert!(rt; unreadable(b"now 0x1"));
        assert!(rt; unreadable(b"now \xff\x00"));
        assert!(rt; unreadable(b"answer 0 1 2"));
    }

    #[test]
    fn spaces_amiss(rt: HostRuntime) {
        assert!(rt; unreadable(b"now  1"));
        assert!(rt; unreadable(b" now 1"));
        assert!(rt; unreadable(b"now 1 "));
        assert!(rt; unreadable(b" "));
        assert!(rt; unreadable(b"now\t1"));
        assert!(rt; unreadable(b"now 1\r"));
    }

    #[test]
    fn numbers(rt: HostRuntime) {
        assert_eq!(rt; shown(b"now 0"), Some(0));
        assert_eq!(rt; shown(b"now 00000000000000000000000000012"), Some(12));
        assert_eq!(rt;
            shown(b"now 18446744073709551615"),
            Some(18446744073709551615)
        );
        assert_eq!(rt; shown(b"now 18446744073709551616"), None);
        assert_eq!(rt; shown(b"now 99999999999999999999"), None);
    }

    #[test]
    fn passed(rt: HostRuntime) {
        assert_eq!(rt; read::<SpanRequest>(b""), None);
        assert_eq!(rt; read::<SpanRequest>(b"# now 1"), None);
        assert_eq!(rt; read::<ScriptRequest>(b"#"), None);
        let slow = ScriptRequest::Clock {
            machine: 1,
            drift: Drift::Slow(7),
        };
        assert_eq!(rt; read(b"clock 1 slow 7"), Some(Ok(slow)));
        assert_eq!(rt;
            read::<ScriptRequest>(b"clock 1 still 7"),
            Some(Err(Unreadable))
        );
    }
}
