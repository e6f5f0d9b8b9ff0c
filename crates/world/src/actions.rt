//! What happens in a world, and what comes of it.
ghost use Rattle.std.specs.Prelude.{◌≡◌};
ghost use Rattle.world.specs.Step.{number_of};
ghost use Rattle.world.specs.declared.actions.NotMade.TheVariants.{Memory};

use clocks::growth::Span;
use std::alloc::AllocError;

/// What comes to a machine: it is to ask a time server, a time server's answer has come, or it is to give its span.
#[derive(Clone, Copy, PartialEq, Eq, Debug)]
pub enum Input {
    Ask(usize),
    // no struct of the three: made by one call, it would be taken apart by the next
    Answer(usize, u32, Span),
    Span,
}

/// One thing that happens: the true time goes on by so much, or an input comes to a machine, with what its clock shows.
#[derive(Clone, Copy, PartialEq, Eq, Debug)]
pub enum Action {
    Pass(u64),
    Input(usize, u64, Input),
}

/// What is answered: the time went on, the number of an ask, an answer was taken, or a span.
#[derive(Clone, Copy, PartialEq, Eq, Debug)]
pub enum Reply {
    Passed,
    Asked(u32),
    Taken,
    Span(Span),
}

/// Why a world is not made. Each case has its number.
#[derive(Clone, Copy, PartialEq, Eq, Debug)]
pub enum NotMade {
    /// a number of machines, or the setup of one, that is out of range
    Invalid = 1,
    /// want of memory
    Memory = 99,
}

impl From<AllocError> for NotMade {
    ghost from_gives = { λ _ r. r ≡ Memory };

    fn from(_e: AllocError) -> NotMade {
        NotMade::Memory
    }
}

impl NotMade {
    /// Its number in the lines and messages. Not `u8::from`, which would not say which number that is; and a method of each enum that
    /// has numbers, since a trait over them would say no more.
    pub fn number(self) -> u8
        ensures { result ≡ number_of self }
    {
        self as u8
    }
}
