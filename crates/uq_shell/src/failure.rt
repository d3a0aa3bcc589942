//! Scripts that are not run, or do not end as done, and how that reads.
ghost use Rattle.std.specs.Prelude.{◌≡◌, IfOk};
ghost use Rattle.std.specs.Option.{option_map};
ghost use Rattle.jx9_vm.specs.Step.{meant};
ghost use Rattle.uq_shell.specs.Failures.{aborts as spec_aborts, at_line as spec_at_line, compile_text as spec_compile_text};
ghost use Rattle.uq_shell.specs.Failures.{failure_of as spec_failure_of, failure_text, fault_text as spec_fault_text};

use itoa::Buffer;
use jx9_compile::CompileKind;
use jx9_meaning::FaultKind;
use jx9_vm::Ending;
use std::alloc::{AllocError, Global};

/// Why a script was not run, or how it ended otherwise than as done.
#[derive(Clone, Copy, Debug, PartialEq, Eq)]
pub enum Failure {
    /// At a byte of this line no token begins.
    Lexical { line: u32 },
    /// No program goes on with a token of this line.
    Syntax { line: u32 },
    /// What keeps it from being compiled is in this line.
    Compile { kind: CompileKind, line: u32 },
    /// An operation of this line faulted. What was not committed is rolled back.
    Fault { kind: FaultKind, line: u32 },
    /// It had fewer units left than it was to take. What was not committed is rolled back.
    Spent,
}

impl Failure {
    /// Whether what was not committed is rolled back: the script was run.
    pub fn aborts(self) -> bool
        ensures { result ≡ spec_aborts self }
    {
        match self {
            Failure::Lexical { line: _ } | Failure::Syntax { line: _ } => false,
            Failure::Compile { kind: _, line: _ } => false,
            Failure::Fault { kind: _, line: _ } | Failure::Spent => true,
        }
    }

    /// How it reads.
    pub fn text(self, alloc: Global) -> Result<Vec<u8>, AllocError>
        ensures { IfOk result (λ text. text.items ≡ failure_text self) }
    {
        match self {
            Failure::Lexical { line } => at_line(alloc, b"lexical error", line),
            Failure::Syntax { line } => at_line(alloc, b"syntax error", line),
            Failure::Compile { kind, line } => at_line(alloc, compile_text(kind), line),
            Failure::Fault { kind, line } => at_line(alloc, fault_text(kind), line),
            Failure::Spent => Vec::from_slice(alloc, b"budget spent"),
        }
    }
}

/// How a script that ended so has failed; None where it is done.
pub fn failure_of(ending: &Ending) -> Option<Failure>
    ensures { result ≡ spec_failure_of (meant ending.now) }
{
    match ending {
        Ending::Done => None,
        Ending::Fault { kind, line } => Some(Failure::Fault {
            kind: *kind,
            line: *line,
        }),
        Ending::Spent => Some(Failure::Spent),
    }
}

/// What is wrong, and the number of the line.
fn at_line(alloc: Global, what: &[u8], line: u32) -> Result<Vec<u8>, AllocError>
    ensures { IfOk result (λ text. text.items ≡ spec_at_line what.now line) }
{
    let mut buffer = Buffer::new();
    let mut text = Vec::from_slice(alloc, what)?;
    text.extend_from_slice(b", line ")?;
    text.extend_from_slice(buffer.format(line).as_bytes())?;
    Ok(text)
}

fn compile_text(kind: CompileKind) -> &'static [u8]
    ensures { result.now ≡ spec_compile_text kind }
{
    match kind {
        CompileKind::UnknownFunction => b"compile error: unknown function",
        CompileKind::DefinedTwice => b"compile error: function defined twice",
        CompileKind::BreakOutside => b"compile error: break outside a loop",
        CompileKind::NotBuilt => b"compile error: not built",
    }
}

fn fault_text(kind: FaultKind) -> &'static [u8]
    ensures { result.now ≡ spec_fault_text kind }
{
    match kind {
        FaultKind::Overflow => b"fault: overflow",
        FaultKind::ZeroDivisor => b"fault: zero divisor",
        FaultKind::NotNumber => b"fault: not a number",
        FaultKind::TooLarge => b"fault: too large",
        FaultKind::TooDeep => b"fault: too deep",
        FaultKind::IndexRange => b"fault: index range",
        FaultKind::NotContainer => b"fault: not a container",
        FaultKind::UnknownFunction => b"fault: unknown function",
        FaultKind::CallDepth => b"fault: call depth",
        FaultKind::BadArgument => b"fault: bad argument",
    }
}
