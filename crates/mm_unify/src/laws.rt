//! What holds of each search.

ghost use Rattle.mm_unify.specs.Laws.{FindsValue, MoreChangeNothing, HasNoSides};
ghost use Rattle.mm_unify.specs.Ordering.{ListsInOrder};
ghost use Rattle.mm_unify.specs.Matching.{ListsMatches};

/// A typecode and a work variable against the typecode and a value without work variables: that value alone is found, in
/// one trial and two for each of its symbols, whichever of the two is on the left.
pub fn one_value_is_found()
    ensures { FindsValue }
{}

/// More trials change nothing where a search did not end by its trials.
pub fn more_trials_change_nothing()
    ensures { MoreChangeNothing }
{}

/// Where one of the strings has no work variable it doesn't matter which of them is on the left.
pub fn sides_do_not_matter()
    ensures { HasNoSides }
{}

/// Where one of the strings has no work variable, the unifiers stand in the order of shortest values first, leftmost
/// variable first: along the other string the values of an earlier unifier and of a later one are the same up to a
/// variable, and there the earlier one's is shorter. It makes no difference whether brackets are heeded, on which side
/// the strings are, and how the search ended.
pub fn unifiers_are_in_order()
    ensures { ListsInOrder }
{}

/// The unifiers of a string without work variables, on the left, and one that begins with a symbol that is none either:
/// the search ends as Whole where the first string is not too long, and the list is that of the matches, which takes for
/// each work variable, the leftmost first, each front of what is left of the string, the shortest first.
pub fn unifiers_are_matches()
    ensures { ListsMatches }
{}
