//! Why functions are no code.

ghost use Rattle.std.specs.Prelude.{◌≡◌};
ghost use Rattle.jx9_compile.specs.declared.error.CodeFault.TheVariants.{Memory};
ghost use Rattle.jx9_compile.specs.declared.error.CompileFault.TheVariants.{Memory as NoMemoryToCompile};

use std::alloc::{AllocError, AllocFailed};
use uq_value::NoMemory;

/// Why functions of ops are no code.
#[derive(Clone, Copy, Debug, PartialEq, Eq)]
pub enum CodeFault {
    /// The first bad op: in the first function that has one, the first. A function without ops, or with more parameters
    /// than slots, is bad at 0, and so are no functions at all.
    BadCode { function: u32, at: u32 },
    /// Memory was asked for and not had.
    Memory,
}

impl From<NoMemory> for CodeFault {
    ghost from_gives = { λ _ e. e ≡ Memory };

    fn from(_missing: NoMemory) -> CodeFault {
        CodeFault::Memory
    }
}

impl From<AllocError> for CodeFault {
    ghost from_gives = { λ _ e. e ≡ Memory };

    fn from(_missing: AllocError) -> CodeFault {
        CodeFault::Memory
    }
}

/// What was not stored is dropped.
impl<T: Drop> From<AllocFailed<T>> for CodeFault {
    ghost from_gives = { λ _ e. e ≡ Memory };

    fn from(_refused: AllocFailed<T>) -> CodeFault {
        CodeFault::Memory
    }
}

/// What is wrong with a program.
#[derive(Clone, Copy, Debug, PartialEq, Eq)]
pub enum CompileKind {
    /// A call by name of no function.
    UnknownFunction,
    /// A definition of a name that is taken.
    DefinedTwice,
    /// `break` or `continue` in no loop of its function.
    BreakOutside,
    /// What is not compiled yet.
    NotBuilt,
}

/// Why a program has no code.
#[derive(Clone, Copy, Debug, PartialEq, Eq)]
pub enum CompileFault {
    /// What is wrong, first in order of text, and its line.
    Bad { kind: CompileKind, line: u32 },
    /// Memory was asked for and not had.
    Memory,
}

impl From<NoMemory> for CompileFault {
    ghost from_gives = { λ _ e. e ≡ NoMemoryToCompile };

    fn from(_missing: NoMemory) -> CompileFault {
        CompileFault::Memory
    }
}

impl From<AllocError> for CompileFault {
    ghost from_gives = { λ _ e. e ≡ NoMemoryToCompile };

    fn from(_missing: AllocError) -> CompileFault {
        CompileFault::Memory
    }
}

/// What was not stored is dropped.
impl<T: Drop> From<AllocFailed<T>> for CompileFault {
    ghost from_gives = { λ _ e. e ≡ NoMemoryToCompile };

    fn from(_refused: AllocFailed<T>) -> CompileFault {
        CompileFault::Memory
    }
}
