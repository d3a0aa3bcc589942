//! Replies, and how they read.
ghost use Rattle.std.specs.Prelude.{◌≡◌};
ghost use Rattle.uq_shell.specs.Replies.{is_refused, refusal_text, taken_as, text_of};

use crate::Status;
use uq_kv::KvFault;

/// What a command answers.
#[derive(Debug, Drop)]
pub enum Reply {
    /// It was done.
    Ok,
    /// The data that were asked for, as a JSON string.
    Data(Vec<u8>),
    /// What was asked is so.
    Yes,
    No,
    /// The text of a script's failure.
    Failed(Vec<u8>),
    Refused(Refusal),
}

/// Why a command was not done. It has changed nothing.
#[derive(Clone, Copy, Debug, PartialEq, Eq)]
pub enum Refusal {
    /// The line is longer than a line may be.
    LineTooLong,
    /// The line is not made of words, or the words do not have the form of their command.
    BadCommand,
    /// No command has this name.
    UnknownCommand,
    EmptyKey,
    KeyTooLong,
    ValueTooLong,
    /// The entry makes more keys or bytes than before, and more than there may be.
    Full,
    /// The key is not there.
    NotFound,
    /// There is no such entry.
    NoEntry,
    /// The input ends within the block of a script.
    UnfinishedScript,
    /// The script is longer than a script may be.
    ScriptTooLong,
}

impl Reply {
    /// How it reads.
    pub fn text(&self) -> &[u8]
        ensures { result.now ≡ text_of self.now }
    {
        match self {
            Reply::Ok => b"ok",
            Reply::Data(text) => text.as_slice(),
            Reply::Yes => b"yes",
            Reply::No => b"no",
            Reply::Failed(text) => text.as_slice(),
            Reply::Refused(refusal) => refusal.text(),
        }
    }

    /// Whether it is a refusal.
    pub fn is_refusal(&self) -> bool
        ensures { result ≡ is_refused self.now }
    {
        matches!(self, Reply::Refused(_) | Reply::Failed(_))
    }
}

impl Refusal {
    fn text(self) -> &'static [u8]
        ensures { result.now ≡ refusal_text self }
    {
        match self {
            Refusal::LineTooLong => b"line too long",
            Refusal::BadCommand => b"bad command",
            Refusal::UnknownCommand => b"unknown command",
            Refusal::EmptyKey => b"empty key",
            Refusal::KeyTooLong => b"key too long",
            Refusal::ValueTooLong => b"value too long",
            Refusal::Full => b"full",
            Refusal::NotFound => b"not found",
            Refusal::NoEntry => b"no entry",
            Refusal::UnfinishedScript => b"unfinished script",
            Refusal::ScriptTooLong => b"script too long",
        }
    }
}

/// What a fault of the store is to a run: a refusal, which is replied, or the status that ends it.
pub fn refusal_of(fault: KvFault) -> Result<Refusal, Status>
    ensures { result ≡ taken_as fault }
{
    match fault {
        KvFault::EmptyKey => Ok(Refusal::EmptyKey),
        KvFault::KeyTooLong => Ok(Refusal::KeyTooLong),
        KvFault::ValueTooLong => Ok(Refusal::ValueTooLong),
        KvFault::Full => Ok(Refusal::Full),
        KvFault::NotFound => Ok(Refusal::NotFound),
        KvFault::NoEntry => Ok(Refusal::NoEntry),
        KvFault::Disk => Err(Status::Disk),
        KvFault::Corrupt => Err(Status::NotDatabase),
        KvFault::Closed { first } => Err(first.into()),
        KvFault::Memory => Err(Status::Memory),
    }
}
