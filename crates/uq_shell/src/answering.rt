//! Commands are answered by the store.
ghost use Rattle.std.specs.Prelude.{◌≡◌, true, false, None, IfOk, OnOk};
ghost use Rattle.uq_kv.specs.Cursor.{place_of};
ghost use Rattle.uq_kv.specs.Kv.{closed_of, is_begun_of};
ghost use Rattle.uq_json.specs.Quote.{quoted};
ghost use Rattle.uq_shell.specs.Answers.{DoesAsAsked, Leaves, RefusesBy, SaysBy, request_of};
ghost use Rattle.uq_shell.specs.Commands.{says_truth};
ghost use Rattle.uq_shell.specs.Failures.{fails_as};
ghost use Rattle.uq_shell.specs.Replies.{says, says_ok};

use crate::Status;
use crate::command::Command;
use crate::cursor::go;
use crate::failure::Failure;
use crate::reply::{Reply, refusal_of};
use std::alloc::Global;
use uq_json::quote;
use uq_kv::{Cursor, Kv, KvFault, Space};
use uq_outside::Disk;

/// What a command answers.
#[derive(Debug, Drop)]
pub struct Answer {
    pub reply: Reply,
    /// Whether a commit stands before the reply.
    pub commits: bool,
}

impl Answer {
    ghost use Rattle.std.specs.Prelude.{◌≡◌, ◌≤◌};
    ghost use Rattle.uq_shell.specs.Obeys.{commits_before};

    /// How many commits stand before the reply.
    pub fn commit_count(&self) -> u128
        ensures count { result ≡ commits_before self.now.commits }
        ensures few { result ≤ 1 }
    {
        if self.commits { 1 } else { 0 }
    }
}

/// Does what a command asks for.
pub fn answer_command<D: Disk>(
    alloc: Global,
    command: Command<'_>,
    kv: &mut Kv<'_, D>,
    cursor: &mut Cursor,
) -> Result<Answer, Status>
    requires { closed_of D.Disk kv.old ≡ None }
    ensures does { IfOk result (DoesAsAsked D.Disk (request_of command.entry) kv.old kv.new (place_of cursor.old) (place_of cursor.new)) }
    ensures open { OnOk result (closed_of D.Disk kv.new ≡ None) }
    ensures whether { IfOk result (λ answer. answer.commits ≡ true → is_begun_of D.Disk kv.old ≡ true) }
    ensures leaves { Leaves D.Disk (request_of command.entry) kv.old kv.new (place_of cursor.old) result }
{
    match command {
        Command::Store { key, value } => done(kv.store(alloc, Space::Keys, key, value)),
        Command::Append { key, more } => done(kv.append(alloc, Space::Keys, key, more)),
        Command::Fetch { key } => found(alloc, kv.fetch(alloc, Space::Keys, key)),
        Command::Delete { key } => done(kv.delete(alloc, Space::Keys, key)),
        Command::Begin => done(kv.begin()),
        Command::Commit => committed(kv.commit()),
        Command::Rollback => done(kv.rollback()),
        Command::Seek { key } => sought(alloc, kv.cursor_seek(alloc, cursor, key), key),
        Command::Go(to) => found(alloc, go(alloc, to, kv, cursor)),
        Command::Key => found(alloc, kv.cursor_key(alloc, cursor)),
        Command::Data => found(alloc, kv.cursor_data(alloc, cursor)),
        Command::Drop => done(kv.cursor_delete(alloc, cursor)),
        Command::Valid => told(kv.cursor_valid(alloc, cursor)),
        Command::Reset => {
            kv.cursor_reset(cursor);
            Ok(replying(Reply::Ok))
        }
        Command::Refused(refusal) => Ok(replying(Reply::Refused(refusal))),
        Command::Failed(failure) => {
            if failure.aborts() {
                failed(alloc, failure, kv.rollback())
            } else {
                failed(alloc, failure, Ok(()))
            }
        }
    }
}

/// An answer without a commit before it.
fn replying(reply: Reply) -> Answer
    ensures { result ≡ record { reply = reply; commits = false } }
{
    Answer {
        reply,
        commits: false,
    }
}

/// The answer to a call that has nothing to tell.
fn done(outcome: Result<(), KvFault>) -> Result<Answer, Status>
    ensures { SaysBy (λ _. says_ok) outcome result }
{
    match outcome {
        Ok(()) => Ok(replying(Reply::Ok)),
        Err(fault) => refused(fault),
    }
}

/// The answer to a commit, before which one stands where a transaction was begun.
fn committed(outcome: Result<bool, KvFault>) -> Result<Answer, Status>
    ensures { SaysBy (λ commits. record says_ok { commits = commits }) outcome result }
{
    match outcome {
        Ok(commits) => Ok(Answer {
            reply: Reply::Ok,
            commits,
        }),
        Err(fault) => refused(fault),
    }
}

/// The answer to a look-up: the data as a JSON string.
fn found(alloc: Global, outcome: Result<Vec<u8>, KvFault>) -> Result<Answer, Status>
    ensures { SaysBy (λ found. says (quoted found.items)) outcome result }
{
    match outcome {
        Ok(data) => match quote(alloc, &data) {
            Ok(text) => Ok(replying(Reply::Data(text))),
            Err(_) => Err(Status::Memory),
        },
        Err(fault) => refused(fault),
    }
}

/// The answer to a search for a key: the key as a JSON string.
fn sought(alloc: Global, outcome: Result<(), KvFault>, key: &[u8]) -> Result<Answer, Status>
    ensures { SaysBy (λ _. says (quoted key.now)) outcome result }
{
    match outcome {
        Ok(()) => match quote(alloc, key) {
            Ok(text) => Ok(replying(Reply::Data(text))),
            Err(_) => Err(Status::Memory),
        },
        Err(fault) => refused(fault),
    }
}

/// The answer to a question.
fn told(outcome: Result<bool, KvFault>) -> Result<Answer, Status>
    ensures { SaysBy says_truth outcome result }
{
    match outcome {
        Ok(true) => Ok(replying(Reply::Yes)),
        Ok(false) => Ok(replying(Reply::No)),
        Err(fault) => refused(fault),
    }
}

/// The answer to a script that failed, behind a rollback where it was run.
fn failed(alloc: Global, failure: Failure, outcome: Result<(), KvFault>) -> Result<Answer, Status>
    ensures { SaysBy (λ _. fails_as failure) outcome result }
{
    match outcome {
        Ok(()) => match failure.text(alloc) {
            Ok(text) => Ok(replying(Reply::Failed(text))),
            Err(_) => Err(Status::Memory),
        },
        Err(fault) => refused(fault),
    }
}

/// The answer to a call that gave this fault.
fn refused(fault: KvFault) -> Result<Answer, Status>
    ensures { RefusesBy fault result }
{
    match refusal_of(fault) {
        Ok(refusal) => Ok(replying(Reply::Refused(refusal))),
        Err(status) => Err(status),
    }
}
