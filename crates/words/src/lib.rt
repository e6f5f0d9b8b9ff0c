//! The words of a line, and the numbers among them.
//!
//! A line is bytes of any kind, text or not. Its words are apart by single spaces, so two spaces in a row have an empty word between
//! them, and a space at an end of the line has one there; an empty word is no number and no keyword. A number is one or more of the
//! digits 0 to 9 and nothing else, with any number of zeros in front, of a value of at most 2^64 - 1.
//!
//! `Words` is an iterator over the words of a line that have not been read yet, and contracts see it as their list. Every call answers
//! exactly what the definitions in `specs/` say of those words, and asks nothing of its caller. Words that are joined by single spaces
//! are the words of their line, a line is its words joined, and a number's digits read back as that number.
#![tactic(auto)]

ghost use Rattle.std.specs.Prelude.{◌≡◌, ◌==◌, ◌∷◌, position};
ghost use Rattle.std.specs.Iterator.{YieldsFirstRef, item_count};
ghost use Rattle.words.specs.Laws.{LinesReadBack, NoZeroInFront, NumbersReadBack, WordsReadBack};
ghost use Rattle.words.specs.Numbers.{NextNumber, next_digit, number_of, numbers_of, read_from};
ghost use Rattle.words.specs.Words.{left, words_of};

use std::marker::Model;

// The number `n` with one more digit behind it.
fn with_digit(n: u64, b: u8) -> Option<u64>
    ensures { result ≡ next_digit n b }
{
    let digit = match b {
        b'0'..=b'9' => b - b'0',
        _ => return None,
    };
    n.checked_mul(10)?.checked_add(u64::from(digit))
}

// The value of a word of digits. Not std's `parse`, which takes a plus in front, and reads a word whole as text even where its first
// byte is no digit.
fn value(word: &[u8]) -> Option<u64>
    ensures { result ≡ read_from 0 word.now }
{
    let mut n = 0;
    for b in word {
        n = with_digit(n, *b)?;
    }
    Some(n)
}

/// The number that a word is, if it is one.
pub fn number(word: &[u8]) -> Option<u64>
    ensures { result ≡ number_of word.now }
{
    if word.is_empty() {
        return None;
    }
    value(word)
}

// Where the first space of a line stands, if there is one.
fn first_space(line: &[u8]) -> Option<usize>
    ensures { result ≡ position (λ b. b == 32) line.now }
{
    line.iter().position(|b| *b == b' ')
}

/// The first word of a line, and what stands behind the space that ends it.
#[tactic(auto, using(crate::proofs::Cuts::cut_at, crate::proofs::Cuts::cut_none))]
pub fn first_word(line: &[u8]) -> (&[u8], Option<&[u8]>)
    ensures { words_of line.now ≡ result.0.now ∷ left result.1 }
{
    match first_space(line) {
        Some(space) => (&line[..space], Some(&line[space + 1..])),
        None => (line, None),
    }
}

/// The words of a line that have not been read yet.
// Not the iterator of std's `split`: a field would have to name its closure's type, which has no name; and the gate refuses to hand
// out a function pointer made in its place.
#[derive(Drop)]
pub struct Words<'a> {
    // The whole line before the first word, and then what stands behind the space that ended the last one; nothing where none did.
    rest: Option<&'a [u8]>,
}

impl<'a> Model for Words<'a> {
    ghost use Rattle.std.specs.Prelude.{List, ℕ};
    ghost use Rattle.words.specs.Words.{left};

    ghost Value = { List (List ℕ) };

    ghost view = { λ words. left words.rest };
}

impl<'a> Iterator for Words<'a> {
    type Item = &'a [u8];

    ghost next_gives = { YieldsFirstRef (λ words. words) };

    ghost remaining = { item_count (λ words. words) };

    fn next(&mut self) -> Option<&'a [u8]> {
        let (word, rest) = first_word(self.rest?);
        self.rest = rest;
        Some(word)
    }
}

impl<'a> Words<'a> {
    /// The words of a line, of which none has been read.
    pub fn of(line: &'a [u8]) -> Self
        ensures { result ≡ words_of line.now }
    {
        Words { rest: Some(line) }
    }

    /// The next word as a number, if there is one and it is a number. The word is read either way.
    pub fn next_number(&mut self) -> Option<u64>
        ensures { NextNumber self.old self.new result }
    {
        number(self.next()?)
    }

    /// The words that are left, if they are exactly N numbers.
    #[tactic(auto, using(crate::proofs::Fields::begun, crate::proofs::Fields::go_on, crate::proofs::Fields::stop, crate::proofs::Fields::full, crate::proofs::Fields::over_line))]
    pub fn numbers<const N: usize>(mut self) -> Option<[u64; N]>
        ensures { result ≡ numbers_of N self.entry }
    {
        let mut numbers = [0; N];
        for n in numbers.iter_mut() {
            *n = self.next_number()?;
        }
        // a word too many is not looked at, however long it is
        match self.rest {
            None => Some(numbers),
            Some(_) => None,
        }
    }
}

/// Carries the laws that a number's digits read back as that number, with no zero in front.
#[tactic(auto, using(crate::proofs::Writes::numbers_read_back_lem))]
pub fn numbers_read_back()
    ensures same { NumbersReadBack }
    ensures short { NoZeroInFront }
{}

/// Carries the laws that joined words are the words of their line, and that a line is its words joined.
#[tactic(auto, using(crate::proofs::Joins::words_read_back_lem, crate::proofs::Joins::lines_read_back))]
pub fn words_read_back()
    ensures joined { WordsReadBack }
    ensures cut { LinesReadBack }
{}
