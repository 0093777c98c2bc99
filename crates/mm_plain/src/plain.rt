//! Plain proof trees.

use mm_subst::{Subst, WStr};
use sqlite_items::Items;

/// A proof tree as contracts see it. An unknown step has the string that it is to prove. A known step has it too, and the
/// id of the statement that it names, the strings that stand for this statement's variables, and a child for each
/// mandatory hypothesis of it.
#[derive(Drop)]
pub enum Plain {
    Unknown(WStr),
    Known(WStr, u32, Subst, Items<Plain>),
}
