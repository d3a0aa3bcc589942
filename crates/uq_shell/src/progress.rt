//! Where a run stands, and what ends it before its input ends.
ghost use Rattle.std.specs.Prelude.{◌≡◌};
ghost use Rattle.uq_shell.specs.Obeys.{at_start};
ghost use Rattle.uq_shell.specs.Replies.{stop_by_input};
ghost use Rattle.uq_shell.specs.Statuses.{status_of};

use crate::Status;
use jx9_vm::Meter;
use uq_words::InputFault;

/// Where a run stands.
#[derive(Drop)]
pub struct Progress {
    /// How many events are done.
    pub done: u128,
    /// The byte that was put out last.
    pub last: Option<u8>,
    /// Whether a reply was a refusal.
    pub is_refused: bool,
    /// The units that scripts took.
    pub meter: Meter,
}

/// What ends a run before its input ends.
#[derive(Clone, Copy, Debug, PartialEq, Eq)]
pub enum Stop {
    /// It ends with this status, of which the line is still to be put out.
    At(Status),
    /// The sink failed, and nothing more is put out.
    Sink,
}

impl Progress {
    ghost use Rattle.std.specs.Prelude.{◌<◌, ◌^◌};
    ghost use Rattle.uq_shell.specs.Performs.{Passes};

    /// Nothing was done yet.
    pub fn new() -> Progress
        ensures { result ≡ at_start }
    {
        Progress {
            done: 0,
            last: None,
            is_refused: false,
            meter: Meter::new(),
        }
    }

    /// So many events more are done, of which this is the last byte that was put out, where one was.
    pub fn pass(&mut self, events: u64, last: Option<u8>)
        requires { self.old.done < 2 ^ 120 }
        ensures { Passes events last self.old self.new }
    {
        self.done += u128::from(events);
        if last.is_some() {
            self.last = last;
        }
    }

    /// How a run ends whose input ends here.
    pub fn status(&self) -> Status
        ensures { result ≡ status_of self.now.is_refused }
    {
        if self.is_refused {
            Status::Refused
        } else {
            Status::Done
        }
    }
}

impl From<InputFault> for Stop {
    ghost from_gives = { λ fault gives. gives ≡ stop_by_input fault };

    fn from(fault: InputFault) -> Stop {
        match fault {
            InputFault::Source => Stop::At(Status::Stream),
            InputFault::Memory => Stop::At(Status::Memory),
        }
    }
}
