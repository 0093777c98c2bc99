//! Labelled statements: their kinds, the mandatory hypotheses of an assertion, typecodes, and variables in the order of
//! their `$f`.
#![tactic(auto)]

mod floated;
mod mandatory;
mod statement;
mod variables;

pub use floated::typecodes_of;
pub use mandatory::{mandatory_of, variables_of};
pub use statement::{Kind, Statement};
pub use variables::ordered_variables;
