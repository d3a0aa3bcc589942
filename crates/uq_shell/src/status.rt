//! Statuses, and the text that ends a run with each.
ghost use Rattle.std.specs.Prelude.{◌≡◌};
ghost use Rattle.uq_shell.specs.Replies.{status_by};
ghost use Rattle.uq_shell.specs.Statuses.{row};

use uq_kv::OpenFault;
use uq_model::Cause;
use uq_words::OptionsFault;

/// How a run ended.
#[derive(Clone, Copy, Debug, PartialEq, Eq)]
pub enum Status {
    /// Everything was done as asked.
    Done,
    /// A command was refused.
    Refused,
    /// The words ask for nothing that the program can do.
    Usage,
    /// There was no memory.
    Memory,
    /// The disk failed.
    Disk,
    /// The source or the sink failed.
    Stream,
    /// The files hold no database.
    NotDatabase,
    /// More input is left than is read.
    TooMuchInput,
}

impl Status {
    /// The exit status of the program.
    pub fn number(self) -> u8
        ensures { result ≡ (row self).number }
    {
        self as u8
    }

    /// The text that ends a run with this status; empty where nothing does.
    pub fn text(self) -> &'static [u8]
        ensures { result.now ≡ (row self).text }
    {
        match self {
            Status::Done | Status::Refused => b"",
            Status::Usage =>
                b"usage: unqlite [--budget N] [--max-entries N] [--max-bytes N] DB [COMMAND [WORD ...]]",
            Status::Memory => b"out of memory",
            Status::Disk => b"disk failed",
            // Written where the source failed. Where the sink did, nothing more is.
            Status::Stream => b"input failed",
            Status::NotDatabase => b"not a database",
            Status::TooMuchInput => b"too much input",
        }
    }
}

impl From<Cause> for Status {
    ghost from_gives = { λ cause gives. gives ≡ status_by cause };

    fn from(cause: Cause) -> Status {
        match cause {
            Cause::Disk => Status::Disk,
            Cause::Corrupt => Status::NotDatabase,
            Cause::Memory => Status::Memory,
        }
    }
}

impl From<OpenFault> for Status {
    ghost use Rattle.uq_shell.specs.Replies.{status_at_opening};

    ghost from_gives = { λ fault gives. gives ≡ status_at_opening fault };

    fn from(fault: OpenFault) -> Status {
        match fault {
            OpenFault::Disk => Status::Disk,
            OpenFault::NotDatabase => Status::NotDatabase,
            OpenFault::Memory => Status::Memory,
        }
    }
}

impl From<OptionsFault> for Status {
    ghost use Rattle.uq_shell.specs.Replies.{status_of_words};

    ghost from_gives = { λ fault gives. gives ≡ status_of_words fault };

    fn from(fault: OptionsFault) -> Status {
        match fault {
            OptionsFault::Usage => Status::Usage,
            OptionsFault::Memory => Status::Memory,
        }
    }
}
