//! What the words of a command ask for.
ghost use Rattle.std.specs.Prelude.{◌≡◌, bytes_eq, map};
ghost use Rattle.std.specs.Option.{option_map};
ghost use Rattle.uq_shell.specs.Answers.{form_of, request_of};
ghost use Rattle.uq_shell.specs.Commands.{NoWord, commands, filled, form_named, request};

use crate::cursor::Move;
use crate::failure::Failure;
use crate::reply::Refusal;

/// A command and its words.
#[derive(Clone, Copy, Debug)]
pub enum Command<'a> {
    Store { key: &'a [u8], value: &'a [u8] },
    Append { key: &'a [u8], more: &'a [u8] },
    Fetch { key: &'a [u8] },
    Delete { key: &'a [u8] },
    Begin,
    Commit,
    Rollback,
    Seek { key: &'a [u8] },
    Go(Move),
    Key,
    Data,
    Drop,
    Valid,
    Reset,
    /// Words that are no command.
    Refused(Refusal),
    /// The end of a script that was not run, or did not end as done.
    Failed(Failure),
}

/// A command without its words.
#[derive(Clone, Copy, Debug)]
pub enum Verb {
    Store,
    Append,
    Fetch,
    Delete,
    Begin,
    Commit,
    Rollback,
    Seek,
    Go(Move),
    Key,
    Data,
    Drop,
    Valid,
    Reset,
    Script,
}

/// What the words of a command ask for: its name, and the words that stand behind it.
pub fn read_command(words: &[Vec<u8>]) -> Command<'_>
    ensures { request_of result ≡ request (map (λ word. word.items) words.now) }
{
    let [name, words @ ..] = words else {
        return Command::Refused(Refusal::BadCommand);
    };
    match verb_named(name.as_slice()) {
        Some(verb) => command_of(verb, words),
        None => Command::Refused(Refusal::UnknownCommand),
    }
}

/// The command of this name.
fn verb_named(name: &[u8]) -> Option<Verb>
    ensures { option_map form_of result ≡ form_named commands name.now }
{
    if is_same(name, b"store") {
        return Some(Verb::Store);
    }
    if is_same(name, b"append") {
        return Some(Verb::Append);
    }
    if is_same(name, b"fetch") {
        return Some(Verb::Fetch);
    }
    if is_same(name, b"delete") {
        return Some(Verb::Delete);
    }
    if is_same(name, b"begin") {
        return Some(Verb::Begin);
    }
    if is_same(name, b"commit") {
        return Some(Verb::Commit);
    }
    if is_same(name, b"rollback") {
        return Some(Verb::Rollback);
    }
    if is_same(name, b"seek") {
        return Some(Verb::Seek);
    }
    if is_same(name, b"first") {
        return Some(Verb::Go(Move::First));
    }
    if is_same(name, b"last") {
        return Some(Verb::Go(Move::Last));
    }
    if is_same(name, b"next") {
        return Some(Verb::Go(Move::Next));
    }
    if is_same(name, b"prev") {
        return Some(Verb::Go(Move::Prev));
    }
    if is_same(name, b"key") {
        return Some(Verb::Key);
    }
    if is_same(name, b"data") {
        return Some(Verb::Data);
    }
    if is_same(name, b"drop") {
        return Some(Verb::Drop);
    }
    if is_same(name, b"valid") {
        return Some(Verb::Valid);
    }
    if is_same(name, b"reset") {
        return Some(Verb::Reset);
    }
    if is_same(name, b"script") {
        return Some(Verb::Script);
    }
    None
}

fn is_same(word: &[u8], name: &[u8]) -> bool
    ensures { result ≡ bytes_eq word.now name.now }
{
    word == name
}

/// The command with the words behind its name, where these have its form.
fn command_of<'a>(verb: Verb, words: &'a [Vec<u8>]) -> Command<'a>
    ensures { request_of result ≡ filled (form_of verb) (map (λ word. word.items) words.now) }
{
    match verb {
        Verb::Store => match words {
            [key, value] => Command::Store {
                key: key.as_slice(),
                value: value.as_slice(),
            },
            _ => Command::Refused(Refusal::BadCommand),
        },
        Verb::Append => match words {
            [key, more] => Command::Append {
                key: key.as_slice(),
                more: more.as_slice(),
            },
            _ => Command::Refused(Refusal::BadCommand),
        },
        Verb::Fetch => match words {
            [key] => Command::Fetch {
                key: key.as_slice(),
            },
            _ => Command::Refused(Refusal::BadCommand),
        },
        Verb::Delete => match words {
            [key] => Command::Delete {
                key: key.as_slice(),
            },
            _ => Command::Refused(Refusal::BadCommand),
        },
        Verb::Begin => alone(Command::Begin, words),
        Verb::Commit => alone(Command::Commit, words),
        Verb::Rollback => alone(Command::Rollback, words),
        Verb::Seek => match words {
            [key] => Command::Seek {
                key: key.as_slice(),
            },
            _ => Command::Refused(Refusal::BadCommand),
        },
        Verb::Go(to) => alone(Command::Go(to), words),
        Verb::Key => alone(Command::Key, words),
        Verb::Data => alone(Command::Data, words),
        Verb::Drop => alone(Command::Drop, words),
        Verb::Valid => alone(Command::Valid, words),
        Verb::Reset => alone(Command::Reset, words),
        // Where it stands alone it is taken before, as a script.
        Verb::Script => Command::Refused(Refusal::BadCommand),
    }
}

/// A command that has no words.
fn alone<'a>(command: Command<'a>, words: &[Vec<u8>]) -> Command<'a>
    ensures { request_of result ≡ filled (NoWord (request_of command.entry)) (map (λ word. word.items) words.now) }
{
    match words {
        [] => command,
        _ => Command::Refused(Refusal::BadCommand),
    }
}
