//! Words and lines: what a line of the input says, the lines of an input, and what the words of the program ask for.
#![tactic(auto)]

#[cfg(test)]
mod block_tests;
mod blocks;
mod error;
mod laws;
mod line;
mod lines;
mod options;
mod reading;
mod script;
mod settings;
#[cfg(test)]
mod tests;
mod words;

pub use blocks::{BlockStep, LONGEST_SCRIPT};
pub use error::{InputFault, OptionsFault, WordsFault};
pub use laws::{blocks_begin, lines_begin, words_are_spelled};
pub use line::{Line, read_line};
pub use lines::{LONGEST, Lines, Step};
pub use options::{Name, Order, read_options};
pub use reading::read_words;
pub use script::{Script, read_script};
pub use settings::MOST_BUDGET;
pub use words::Words;
