//! The tables of a database's reader: names in order of first appearance, symbols with what is in force of each, marks on numbers, and numbers gathered with marks.
#![tactic(auto)]

mod declarations;
mod gathered;
mod groups;
mod holders;
mod laws;
mod layers;
mod marks;
mod names;
mod pair;
mod parted;
mod partings;
mod table;
mod trail;

pub use declarations::Declarations;
pub use gathered::Gathered;
pub use groups::Groups;
pub use laws::looking_back_finds_what_is_kept;
pub use layers::Layers;
pub use marks::Marks;
pub use names::Names;
pub use pair::Pair;
pub use parted::{Parted, pairs_differ, pairs_stand_in_order};
pub use partings::Partings;
pub use table::{Found, NOTHING, Standing, SymbolTable};
pub use trail::Trail;
