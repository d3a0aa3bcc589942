//! Code for a machine with an operand stack: its ops, what a code does, and code that is put together by hand.
#![tactic(auto)]

mod checking;
mod code;
#[cfg(test)]
mod compiler_tests;
mod compiling;
mod emitting;
mod error;
mod expressions;
mod function;
mod heights;
mod laws;
mod names;
mod op;
mod problems;
mod statements;
#[cfg(test)]
mod tests;

pub use code::Code;
pub use compiling::compile;
pub use error::{CodeFault, CompileFault, CompileKind};
pub use function::Function;
pub use laws::{code_ends_once, code_rows, every_code_ends, one_outcome};
pub use op::Op;
