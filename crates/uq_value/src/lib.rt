//! Values of the script language and the store: null, booleans, whole numbers, texts, lists and objects.
#![tactic(auto)]

mod blocks;
mod builder;
mod comparing;
mod copying;
mod depth_counts;
mod error;
mod kept;
mod key;
mod laws;
mod list;
mod marks;
mod measuring;
mod names;
mod numbers;
mod object;
mod part;
mod reaching;
mod reading;
mod step;
mod table;
#[cfg(test)]
mod tests;
mod text;
mod value;
mod writing;

pub use builder::ObjectBuilder;
pub use comparing::{loose_same, order, same, truth};
pub use copying::copy;
pub use error::{NoMemory, ValueFault};
pub use laws::{one_level, parts_are_values};
pub use list::List;
pub use measuring::{MOST_DEPTH, MOST_SIZE, depth, is_value, size};
pub use numbers::{from_digits, number};
pub use object::Object;
pub use reading::{get_index, get_member};
pub use step::Step;
pub use text::Text;
pub use value::Value;
pub use writing::{put, put_index, put_member};
