//! The exchanges of a machine with its time servers. The calls stand in `calls`.
ghost use Rattle.std.specs.Prelude.{◌≡◌, ◌*◌, ◌<◌, ◌≤◌, length};
ghost use Rattle.votes.specs.Exchanges.{View, IsInRange};

use clocks::growth::Answer;
use clocks::rates::Rate;
use std::marker::Model;

/// How many time servers a machine can go by.
pub const SERVERS: usize = 16;

/// What a machine is made with: how many time servers it goes by, how many of them may be faulty, how far its clock may be off, and the
/// number of its first ask of each time server.
#[derive(Clone, Copy, PartialEq, Eq, Debug)]
pub struct Setup {
    pub servers: usize,
    pub faulty: usize,
    pub rate: u64,
    pub first: u32,
}

/// An ask of a time server: its number, and what the clock showed.
#[derive(Clone, Copy, PartialEq, Eq, Debug)]
pub struct Ask {
    pub number: u32,
    pub clock: u64,
}

/// One time server's exchange with the machine: the last ask, and the last answer (which may be to an earlier ask). A server that hasn't
/// answered since the machine came up counts as a span of no numbers.
#[derive(Clone, Copy, PartialEq, Eq, Debug, Default)]
pub struct Exchange {
    pub ask: Option<Ask>,
    pub known: Option<Answer>,
}

/// Why a call was refused; nothing has changed then. Each case has its number.
#[derive(Clone, Copy, PartialEq, Eq, Debug)]
pub enum Refusal {
    /// a number out of range: a machine or a time server that is not there, a lower end above the upper end, a clock reading below
    /// an earlier one, a time or a reading above the highest number, a pace above the clock's rate
    Invalid = 1,
    /// not the number of the last ask of that time server
    WrongNumber = 2,
    /// no time lies in enough of the spans
    NoSpan = 3,
}

/// A machine's exchanges with its time servers.
#[derive(Clone, Copy)]
pub struct Votes {
    // these four, and no `Setup`, whose numbers may be out of range
    pub(crate) rate: Rate,
    pub(crate) servers: usize,
    pub(crate) faulty: usize,
    // the number of the first ask of each time server
    pub(crate) first: u32,
    // the highest clock reading taken
    pub(crate) latest: u64,
    // sixteen places, of which the first `servers` count; an array, since a machine is made without allocating
    pub(crate) exchanges: [Exchange; SERVERS],
}

impl Model for Votes {
    ghost Value = { View };

    ghost view = { λ v. record { rate = v.rate; servers = v.servers; faulty = v.faulty; first = v.first; latest = v.latest; exchanges = v.exchanges } };

    ghost invariant = { λ v. IsInRange (record { rate = v.rate; servers = v.servers; faulty = v.faulty; first = v.first; latest = v.latest; exchanges = v.exchanges }) };

    ghost inverse = { λ v. record { rate = v.rate; servers = v.servers; faulty = v.faulty; first = v.first; latest = v.latest; exchanges = v.exchanges } };
}
