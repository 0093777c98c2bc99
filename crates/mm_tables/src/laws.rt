//! What layers keep, seen from the whole past.

ghost use Rattle.std.specs.Prelude.{◌≡◌, ◌<◌, ℕ, List, length, slice_get, Some};
ghost use Rattle.mm_tables.specs.Moves.{Move, in_force, notes, before};
ghost use Rattle.mm_tables.specs.Layered.{layered};

/// What is kept of any past is what looking back over it finds: what is in force now, how many moments were noted, and
/// what was in force at each of them.
pub fn looking_back_finds_what_is_kept()
    ensures now { (past : List (Move ℕ)) → (layered past).now ≡ in_force 0 past }
    ensures moments { (past : List (Move ℕ)) → length (layered past).moments ≡ notes past }
    ensures at { (past : List (Move ℕ)) (k : ℕ) → k < notes past → slice_get (layered past).moments k ≡ Some (in_force 0 (before k past)) }
{}
