//! What each request of a script does.
ghost use Rattle.std.specs.Prelude.{◌≡◌, None};
ghost use Rattle.lines.specs.Lines.{line_by};
ghost use Rattle.lines.specs.Scripts.{script_request};
ghost use Rattle.rehearse.specs.Responds.{Begins, Heard, OnInput, OnPace, OnPass, Responds, Scripted, machine_says, not_taken, refused_as, said_of, time_of, world_says};

use super::rehearsal::Rehearsal;
use answers::{Reply, Said};
use clocks::counting::Drift;
use lines::{ScriptRequest, Unreadable};
use std::alloc::Global;
use votes::types::{Refusal, Setup};
use world::actions::{self, Input};

/// A script that is played: nothing before its first world.
#[derive(Drop)]
pub(crate) struct Script {
    heap: Global,
    playing: Option<Rehearsal>,
}

// What came of a call on the world.
type Outcome = Result<actions::Reply, Refusal>;

// What a refusal is answered by. Not a `From`, which may not stand here between types of two other crates.
fn refused(refusal: Refusal) -> Said
    ensures { result ≡ refused_as refusal }
{
    Said::refused(refusal.number())
}

// What is said where nothing was refused: a span, or that it was done. No `From` either.
fn said(reply: actions::Reply) -> Said
    ensures { result ≡ said_of reply }
{
    match reply {
        actions::Reply::Span(span) => Said::Span(span),
        actions::Reply::Passed | actions::Reply::Asked(_) | actions::Reply::Taken => Said::Ok,
    }
}

fn by_world(time: u64, outcome: Outcome) -> Reply
    ensures { result ≡ world_says time outcome }
{
    Reply::World {
        time,
        said: outcome.map_or_else(refused, said),
    }
}

// A machine's number stands before what it says, unless it was refused.
fn by_machine(time: u64, machine: u64, outcome: Outcome) -> Reply
    ensures { result ≡ machine_says time machine outcome }
{
    match outcome {
        Ok(reply) => Reply::Machine {
            time,
            machine,
            said: said(reply),
        },
        Err(refusal) => Reply::World {
            time,
            said: refused(refusal),
        },
    }
}

impl Rehearsal {
    fn on_pass(&mut self, by: u64) -> Reply
        ensures { OnPass self.old by self.new result }
    {
        let outcome = self.pass(by);
        by_world(self.time(), outcome)
    }

    // A change of pace is answered as an input is.
    fn on_pace(&mut self, machine: u64, drift: Drift) -> Reply
        ensures { OnPace self.old machine drift self.new result }
    {
        let outcome = self.pace(machine, drift).map(|()| actions::Reply::Taken);
        by_machine(self.time(), machine, outcome)
    }

    fn on_input(&mut self, machine: u64, input: Input) -> Reply
        ensures { OnInput self.old machine input self.new result }
    {
        let outcome = self.input(machine, input);
        by_machine(self.time(), machine, outcome)
    }

    // Plays a request to the world that is there; a new world is not its to begin.
    fn respond(&mut self, request: ScriptRequest) -> Option<Reply>
        ensures { Responds self.old request self.new result }
    {
        match request {
            ScriptRequest::World { .. } => None,
            ScriptRequest::Pass { by } => Some(self.on_pass(by)),
            ScriptRequest::Clock { machine, drift } => Some(self.on_pace(machine, drift)),
            ScriptRequest::Ask { machine, server } => {
                Some(self.on_input(machine, Input::Ask(server as usize)))
            }
            ScriptRequest::Answer {
                machine,
                server,
                span,
            } => {
                let answer = self.answer(machine, server, span);
                Some(self.on_input(machine, answer))
            }
            ScriptRequest::Honest {
                machine,
                server,
                less,
                more,
            } => {
                let answer = self.answer(machine, server, self.around(less, more));
                Some(self.on_input(machine, answer))
            }
            ScriptRequest::Span { machine } => Some(self.on_input(machine, Input::Span)),
        }
    }
}

impl Script {
    pub(crate) fn new(heap: Global) -> Script
        ensures { result.playing ≡ None }
    {
        Script {
            heap,
            playing: None,
        }
    }

    // The true time, 0 before the first world.
    fn time(&self) -> u64
        ensures { result ≡ time_of self.now.playing }
    {
        match &self.playing {
            Some(playing) => playing.time(),
            None => 0,
        }
    }

    // The answer to a line that cannot be read, and to any but a new world before the first.
    fn unreadable(&self) -> Reply
        ensures { result ≡ not_taken self.now.playing }
    {
        Reply::World {
            time: self.time(),
            said: refused(Refusal::Invalid),
        }
    }

    // A new world takes the place of the old one, unless it is refused.
    fn begin(&mut self, machines: u64, setup: Setup) -> Reply
        ensures { Begins self.old.playing machines setup self.new.playing result }
    {
        match Rehearsal::new(self.heap, machines, setup) {
            Ok(begun) => {
                self.playing = Some(begun);
                Reply::World {
                    time: 0,
                    said: Said::Ok,
                }
            }
            Err(why) => Reply::World {
                time: self.time(),
                said: Said::refused(why.number()),
            },
        }
    }

    // Plays a request, and says what came of it. Before the first world nothing else is taken.
    fn respond(&mut self, request: ScriptRequest) -> Reply
        ensures { Scripted self.old.playing request self.new.playing result }
    {
        if let ScriptRequest::World {
            machines,
            servers,
            faulty,
            rate,
        } = request
        {
            return self.begin(machines, Setup::numbered(servers, faulty, rate));
        }
        if let Some(playing) = &mut self.playing {
            if let Some(reply) = playing.respond(request) {
                return reply;
            }
        }
        self.unreadable()
    }

    /// What is said to a line, and nothing to one that is passed over.
    pub(crate) fn hear(&mut self, line: &[u8]) -> Option<Reply>
        ensures { Heard self.old.playing (line_by script_request line.now) self.new.playing result }
    {
        match lines::read(line)? {
            Ok(request) => Some(self.respond(request)),
            Err(Unreadable) => Some(self.unreadable()),
        }
    }
}
