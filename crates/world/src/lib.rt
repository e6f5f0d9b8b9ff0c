//! A world of machines with clocks and time servers, for rehearsals and for the promise over every run of it.
//!
//! The world has the true time, which no machine has, and 1 to 8 machines, each with its own number of time servers, of faulty ones and
//! rate of its clock. Everything that happens to it is an action: the true time goes on, or an input comes to a machine with what its
//! clock shows, any number at all; time servers answer anything.
//!
//! Promised: `World::play` plays one action by the definition `step` of specs/Step; and after every list of actions, whenever a machine's
//! clock keeps within its error and at most f of its time servers lie or haven't answered, it gives a span, and the true time is in it
//! (specs/Promise; `spans_hold`, and the contract of `World::play` itself).
//!
//! `actions` has what happens and what comes of it, `machine` one machine with the true times of its exchanges noted beside it, `stage`
//! the machines of a world, and `types` and `play` the world that some list of actions led to.
#![tactic(auto)]

pub mod actions;
mod machine;
pub mod play;
mod stage;
pub mod types;
