//! The stored form of values, both ways.
#![tactic(auto)]

mod decoding;
mod encoding;
mod error;
mod kind;
mod laws;
#[cfg(test)]
mod tests;
mod varint;

pub use decoding::decode;
pub use encoding::encode;
pub use error::CodecFault;
pub use laws::{decodes_again, length_is_size, none_begins, one_form};
