//! Spans of time, and clocks that are off by a known error.
//!
//! A span is two numbers of microseconds between which, both included, the true time lies. A machine asks a time server, and
//! is answered by a span that held the true time at some moment between the ask and the answer; while the machine's own clock goes
//! on, that span grows by what the clock may be off.
//!
//! Promised: `Answer::grown` is the rule of growth, and the grown span holds the true time as long as the clock runs within its
//! rate (`growth_holds`); a `Clock` that counts at a pace within the rate runs within it, however often its pace changes
//! (`counting_runs`).
#![tactic(auto)]

pub mod counting;
pub mod growth;
pub mod rates;
