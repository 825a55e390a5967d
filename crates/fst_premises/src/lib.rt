//! What the rules ask of the types of parts besides equality, and what a refusal shows of that.
#![tactic(auto)]

mod binding;
mod builders;
mod choices;
mod fault;
mod leaves;
mod moving;
mod parameters;
mod parts;
mod rows;
mod scene;
mod signs;

pub use binding::{end_body, enter, enter_fields, leave, leave_all, leave_two, same_marks};
pub use builders::{base, named};
pub use choices::{Constructors, case_constructors, match_labels};
pub use fault::{CheckFault, Difference};
pub use leaves::{global_use, new_channel, plain_value, variable};
pub use moving::offered;
pub use parameters::{Parameter, enter_parameter, parameter_of, pop_parameter};
pub use parts::{function_parts, may_be_dropped, pair_parts};
pub use rows::{
    awaited_row, begin_function, branches, closed_row, forked_row, function_row, pair_row,
    received_row, selected_row, sent_row, sequence,
};
pub use scene::{Scene, fields_of, place_of, type_at};
pub use signs::{fixed_operand, is_comparable, result_of};
