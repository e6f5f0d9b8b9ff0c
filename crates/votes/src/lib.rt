//! A machine's span of the true time, out of the answers of several time servers, some of which may be faulty.
//!
//! A machine goes by m time servers, 1 to 16, of which at most f are faulty: they lie, or haven't answered since the machine came
//! up; 2f is below m. From each it has the last answer, grown to the present clock reading (crate `clocks`). The machine's span is
//! from the lowest of the lower ends that lie in at least m - f of the spans to the highest of the upper ends that do.
//!
//! Promised: every call is its definition in specs/Exchanges, for refusals too, which change nothing; and `Votes::span` gives a span that
//! holds the true time whenever at most f of the servers are faulty and the clock keeps within its error (specs/Promise).
#![tactic(auto)]

pub mod calls;
mod counts;
pub mod types;
