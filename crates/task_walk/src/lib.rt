//! The walk over the code of tasks, and the World that answers its operations.
#![tactic(auto)]

mod arguments;
mod calls;
mod caught;
mod code;
mod counts;
mod ended;
mod expressions;
mod locals;
mod operations;
mod part;
mod printed;
mod running;
mod statements;
mod stop;
#[cfg(test)]
mod tests;
mod world;

pub use arguments::place_values;
pub use caught::{catches, text_of};
pub use code::Code;
pub use counts::{inner_levels, is_true, levels_of_part, turns_after};
pub use ended::Ended;
pub use locals::{local_value, put_local};
pub use operations::{ask, draw_object};
pub use part::Part;
pub use printed::Printed;
pub use running::run_code;
pub use stop::Stop;
pub use world::World;
