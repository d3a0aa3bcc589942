//! All that the program does: words to a command, a command to its reply, and `run`, which carries the theorem.
#![tactic(auto)]

mod answering;
mod asking;
mod command;
mod cursor;
#[cfg(test)]
mod cursor_tests;
mod ended;
mod ending;
mod failure;
mod judging;
mod laws;
mod listening;
mod mode;
mod obeying;
mod output;
mod performing;
mod progress;
mod reciting;
mod reply;
mod running;
#[cfg(test)]
mod script_tests;
mod status;
mod terms;
#[cfg(test)]
mod tests;

pub use ended::Ended;
pub use laws::texts_have_one_verdict;
pub use output::put_line;
pub use running::{run, run_within};
pub use status::Status;
pub use uq_words::{Name, OptionsFault, Order, Words, WordsFault, read_options, read_words};
