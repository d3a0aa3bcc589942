//! JSON texts of values, and values of JSON texts (RFC 8259 in a profile: whole numbers of 64 bits, texts of any bytes).
#![tactic(auto)]

mod decoder;
mod error;
mod laws;
mod members;
mod numbers;
mod piece;
mod printing;
mod quoting;
mod reading;
mod scanning;
#[cfg(test)]
mod tests;
mod unquoting;

pub use error::JsonFault;
pub use laws::{front_is_string, none_begins, one_answer, one_string, prints_back, quotes_back};
pub use printing::{print_json, text_of};
pub use quoting::quote;
pub use reading::read_json;
pub use unquoting::{split_string, unquote};
