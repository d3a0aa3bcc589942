//! The machine: it makes the ops of a code over a base and a sink, and counts the units that scripts take.
#![tactic(auto)]

mod ending;
mod joining;
mod laws;
mod layers;
mod machine;
mod meter;
mod operators;
mod running;
mod stop;
#[cfg(test)]
mod tests;
mod unshown;
mod work;

pub use ending::Ending;
pub use laws::code_means_its_scripts;
pub use meter::Meter;
pub use running::exec;
pub use stop::{Ran, Stop, StopCause};
