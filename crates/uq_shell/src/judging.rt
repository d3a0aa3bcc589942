//! The text of a script: its code, or why it is not run.
ghost use Rattle.std.specs.Prelude.{◌≡◌, ◌≤◌, length, IfErr, IfOk};
ghost use Rattle.uq_shell.specs.Verdicts.{HasNoCode, RunsAs, most_text};

use crate::failure::Failure;
use jx9_compile::{Code, CompileFault, compile};
use jx9_lex::{LexFault, lex};
use jx9_parse::{SyntaxFault, parse};
use std::alloc::Global;

/// Why a text has no code.
#[derive(Clone, Copy, Debug, PartialEq, Eq)]
pub enum NoCode {
    /// It is not run.
    Failed(Failure),
    /// Memory was asked for and not had.
    Memory,
}

/// The code of a script of this text, where it is one that runs.
pub fn code_of(alloc: Global, text: &[u8]) -> Result<Code, NoCode>
    requires { length text.now ≤ most_text }
    ensures code { IfOk result (RunsAs text.now) }
    ensures none { IfErr result (HasNoCode text.now) }
{
    let tokens = lex(alloc, text)?;
    let program = parse(alloc, tokens.as_slice())?;
    Ok(compile(alloc, &program)?)
}

impl From<LexFault> for NoCode {
    ghost use Rattle.uq_shell.specs.Untexts.{by_lexer};

    ghost from_gives = { λ fault gives. gives ≡ by_lexer fault };

    fn from(fault: LexFault) -> NoCode {
        match fault {
            LexFault::Bad { line } => NoCode::Failed(Failure::Lexical { line }),
            LexFault::Memory => NoCode::Memory,
        }
    }
}

impl From<SyntaxFault> for NoCode {
    ghost use Rattle.uq_shell.specs.Untexts.{by_parser};

    ghost from_gives = { λ fault gives. gives ≡ by_parser fault };

    fn from(fault: SyntaxFault) -> NoCode {
        match fault {
            SyntaxFault::Dead { token: _, line } => NoCode::Failed(Failure::Syntax { line }),
            SyntaxFault::Memory => NoCode::Memory,
        }
    }
}

impl From<CompileFault> for NoCode {
    ghost use Rattle.uq_shell.specs.Untexts.{by_compiler};

    ghost from_gives = { λ fault gives. gives ≡ by_compiler fault };

    fn from(fault: CompileFault) -> NoCode {
        match fault {
            CompileFault::Bad { kind, line } => NoCode::Failed(Failure::Compile { kind, line }),
            CompileFault::Memory => NoCode::Memory,
        }
    }
}
