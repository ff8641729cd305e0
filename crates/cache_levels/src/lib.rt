//! At which level each operation of a lone pass is answered: a function of the operations that it was asked, with their
//! sites. Shapes tell operations apart as the tests of rules do; what a pass keeps of its sites and of its known rules
//! is what the operations leave.
#![tactic(auto)]

mod answered;
mod answering;
mod laws;
mod operation;
#[cfg(test)]
mod tests;

pub use answered::{Kept, LoneAnswer};
pub use answering::answer;
pub use laws::{
    bound_rules_are_for_their_shapes, chosen_rules_answer_operations,
    counts_are_those_of_the_operations, levels_count_all_operations,
    lone_passes_answer_at_the_levels_of_their_operations, lone_passes_bind_where_no_rule_passes,
    operations_leave_the_members_of_journals, rules_pass_on_their_shapes, shapes_are_told_apart,
};
pub use operation::Operation;
