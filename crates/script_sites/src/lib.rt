//! The sites of a script with the numbers of their binders, and the limits on what a script may have.
#![tactic(auto)]

mod calls;
mod items;
mod laws;
mod limits;
mod locals;
mod members;
mod numbering;
mod site_numbering;
mod sites;
mod statements;

pub use laws::{bodies_have_their_sites, limits_are_judged_in_order};
pub use limits::{
    MOST_BINDERS, MOST_FUNCTIONS, MOST_PARAMETERS, MOST_SHARED, MOST_SITES, MOST_TASKS, What,
};
pub use locals::MOST_LOCALS;
pub use site_numbering::{LimitFault, Numbering, number_sites};
