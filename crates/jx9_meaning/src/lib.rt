//! What a script means, as definitions that compute, and the laws of this meaning.
#![tactic(auto)]

mod fault;
mod laws;

pub use fault::FaultKind;
pub use laws::{
    call_rows, calls_leave_variables, ending_rows, every_script_ends,
    larger_budgets_change_nothing, loop_rows, order_rows, place_rows, scalar_rows, unit_rows,
    unwritten_variables_stay,
};
