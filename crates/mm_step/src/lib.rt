//! What one line does: the commands chosen by their groups, their calls on the files, and the laws over every line.
#![tactic(auto)]

mod group;
mod laws;
mod line;
mod log;
mod perform;
mod reply;

pub use laws::{
    databases_come_by_reading, ends_are_silent, histories_move, logs_change_by_their_commands,
    refused_lines_change_nothing, reports_are_true, saved_theorems_hold, states_stay_sound,
};
pub use line::step;
pub use log::log_name;
pub use reply::Reply;
