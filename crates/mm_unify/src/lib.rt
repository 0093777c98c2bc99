//! The unifiers of two strings with work variables: every way in which they can be made equal, in a stated order.
#![tactic(auto)]

mod advance;
mod bound;
mod brackets;
mod found;
mod frame;
mod laws;
mod listing;
mod numbers;
mod search;
mod values;
mod visit;
mod waiting;

pub use laws::{
    more_trials_change_nothing, one_value_is_found, sides_do_not_matter, unifiers_are_in_order,
    unifiers_are_matches,
};
pub use listing::{Ended, Listing, Rule, Settings, unifiers};
