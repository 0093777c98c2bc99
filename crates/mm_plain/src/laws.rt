//! What holds of plain proofs.

ghost use Rattle.std.specs.Prelude.{◌≡◌, ◌+◌, ◌-◌, ◌<◌, ◌≤◌, ◌++◌, max, ℕ, false, true, All, List, [], ◌∷◌, Option, None, Some, drop, get_or, length, map, reverse, take};
ghost use Rattle.std.specs.List.{sum_by};
ghost use Rattle.std.specs.Option.{option_map};
ghost use Rattle.mm_scope.specs.Contents.{labels_of};
ghost use Rattle.mm_plain.specs.Binding.{HasWorkKeys, IsBinding, bound, bound_in, has_works};
ghost use Rattle.mm_plain.specs.Drawing.{AreFitting, draws_by, draws_of, fresh_for, placed_fresh, with_fresh, with_fresh_in};
ghost use Rattle.mm_plain.specs.Grafts.{HasWorksBelow, cleared, cleared_in, grafted_in, part_at, raised};
ghost use Rattle.mm_plain.specs.Instances.{numbered, values_in};
ghost use Rattle.mm_plain.specs.LabelTrees.{MayStand, bare, fresh_by, fresh_proof, fresh_proof_of, tree_of};
ghost use Rattle.mm_plain.specs.Lengths.{first_long};
ghost use Rattle.mm_plain.specs.Numbers.{HasOwnLabels, labels_in, number_in, number_of_child};
ghost use Rattle.mm_plain.specs.Shape.{Proof, depth_at, depths_of, known, placed, put, size_of, height_of, step_at, steps_of, target_of};
ghost use Rattle.mm_plain.specs.Sources.{sigma_of, source_of};
ghost use Rattle.mm_plain.specs.Rows.{fresh_rows, rows_of, with_rows};
ghost use Rattle.mm_plain.specs.Premises.{may_stand, premises_of, variables_for};
ghost use Rattle.mm_plain.specs.Valid.{Fits, IsString, IsValid, Setting, first_setting, most_levels, most_steps, most_works, placed_in, setting_of};
ghost use Rattle.mm_subst.specs.Substitutions.{Pairs, applied, then_by};
ghost use Rattle.mm_subst.specs.Symbols.{has_work};
ghost use Rattle.mm_subst.specs.declared.symbol.WSym.{WSym};
ghost use Rattle.mm_plain.specs.declared.plain.Plain.{Plain};

/// A valid proof in which an unknown step is made known stays valid, where the statement that the step names and the
/// strings for its variables fit, and the tree does not get too large.
pub fn valid_proofs_stay_valid(bytes: &[u8])
    ensures { (at k id : ℕ) (goal : List WSym) (p : Proof) (sigma : Pairs) → IsValid bytes.now at goal p → 1 ≤ k → k ≤ size_of p.plain → Fits (setting_of bytes.now at p) id sigma → size_of (placed_in bytes.now p k id sigma).plain ≤ 1000000 → height_of (placed_in bytes.now p k id sigma).plain ≤ 2000 → IsValid bytes.now at goal (placed_in bytes.now p k id sigma) }
{
    let _ = bytes;
}

/// A tree with a step replaced has as many steps as before, without those of the old subtree and with those of the new.
pub fn sizes_add_up()
    ensures { (new x : Plain) (k : ℕ) → 1 ≤ k → k ≤ size_of x → size_of (put x k new) + size_of (step_at x k) ≡ size_of x + size_of new }
{}

/// Each known step of a proof that is valid for a theorem of a database names a statement of this database.
pub fn valid_proofs_name_own_statements()
    ensures { (bytes : List ℕ) (at : ℕ) (goal : List WSym) (p : Proof) → at < length (labels_of bytes) → IsValid bytes at goal p → HasOwnLabels bytes p.plain }
{}

/// A substitution changes strings alone: the steps of the tree are the old ones, each under it. So size, height, depths and
/// labels stay, and a step may be replaced before or after. Two substitutions, one after the other, are one.
pub fn substitutions_keep_the_shape()
    ensures steps { (theta : Pairs) (x : Plain) → steps_of (bound theta x) ≡ map (bound theta) (steps_of x) }
    ensures size { (theta : Pairs) (x : Plain) → size_of (bound theta x) ≡ size_of x }
    ensures height { (theta : Pairs) (x : Plain) → height_of (bound theta x) ≡ height_of x }
    ensures depths { (theta : Pairs) (x : Plain) (d : ℕ) → depths_of (bound theta x) d ≡ depths_of x d }
    ensures labels { (theta : Pairs) (x : Plain) → labels_in (bound theta x) ≡ labels_in x }
    ensures target { (theta : Pairs) (x : Plain) (k : ℕ) → target_of (step_at (bound theta x) k) ≡ applied theta (target_of (step_at x k)) }
    ensures puts { (theta : Pairs) (new x : Plain) (k : ℕ) → bound theta (put x k new) ≡ put (bound theta x) k (bound theta new) }
    ensures twice { (theta sigma : Pairs) (x : Plain) → bound (then_by theta sigma) x ≡ bound theta (bound sigma x) }
{}

/// A substitution for work variables leaves a tree without work variables as it is, and makes of the source of a step what
/// it makes of any string.
pub fn work_variables_alone_change()
    ensures plain { (theta : Pairs) (x : Plain) → HasWorkKeys theta → has_works x ≡ false → bound theta x ≡ x }
    ensures sources { (bytes : List ℕ) (theta : Pairs) (x : Plain) → HasWorkKeys theta → source_of bytes (bound theta x) ≡ option_map (applied theta) (source_of bytes x) }
{}

/// A valid proof under a substitution is a valid proof of the goal under it, where no target, source or value gets too
/// long. The keys are work variables, and the values have symbols of the database, and work variables that were drawn.
pub fn valid_proofs_stay_valid_under_substitutions(bytes: &[u8])
    ensures { (at : ℕ) (goal : List WSym) (p : Proof) (theta : Pairs) → IsValid bytes.now at goal p → IsBinding (setting_of bytes.now at p) theta → first_long bytes.now (bound theta p.plain) ≡ None → IsValid bytes.now at (applied theta goal) (bound_in theta p) }
{
    let _ = bytes;
}

/// The subtree at a step is a valid proof of the step's target. A valid proof stays valid where a step is made unknown,
/// where a valid proof of a step's target stands in its place and has no work variables but those of the whole, and where
/// more work variables are drawn.
pub fn valid_proofs_have_valid_parts(bytes: &[u8])
    ensures part { (at k : ℕ) (goal : List WSym) (p : Proof) → IsValid bytes.now at goal p → 1 ≤ k → k ≤ size_of p.plain → IsValid bytes.now at (target_of (step_at p.plain k)) (part_at p k) }
    ensures cleared { (at k : ℕ) (goal : List WSym) (p : Proof) → IsValid bytes.now at goal p → 1 ≤ k → k ≤ size_of p.plain → IsValid bytes.now at goal (cleared_in p k) }
    ensures grafted { (at k : ℕ) (goal : List WSym) (p part : Proof) → IsValid bytes.now at goal p → 1 ≤ k → k ≤ size_of p.plain → IsValid bytes.now at (target_of (step_at p.plain k)) part → HasWorksBelow p.next part.plain → size_of (grafted_in p k part.plain).plain ≤ most_steps → height_of (grafted_in p k part.plain).plain ≤ most_levels → IsValid bytes.now at goal (grafted_in p k part.plain) }
    ensures raised { (at n : ℕ) (goal : List WSym) (p : Proof) → IsValid bytes.now at goal p → p.next + n ≤ most_works + 1 → IsValid bytes.now at goal (raised n p) }
{
    let _ = bytes;
}

/// The levels above a step and those of its subtree are within those of the tree. Where a step is made unknown, the tree
/// loses the steps of the subtree but one, and gets no higher. Where a tree stands in the place of a step without children,
/// the whole is as high as it was, or as the levels above the step and those of the new tree.
pub fn heights_add_up()
    ensures part { (x : Plain) (k : ℕ) → 1 ≤ k → k ≤ size_of x → depth_at x k + height_of (step_at x k) ≤ height_of x }
    ensures cleared_size { (x : Plain) (k : ℕ) → 1 ≤ k → k ≤ size_of x → size_of (cleared x k) + size_of (step_at x k) ≡ size_of x + 1 }
    ensures cleared { (x : Plain) (k : ℕ) → 1 ≤ k → k ≤ size_of x → height_of (cleared x k) ≤ height_of x }
    ensures grafted { (new x : Plain) (k : ℕ) → 1 ≤ k → k ≤ size_of x → size_of (step_at x k) ≡ 1 → height_of (put x k new) ≡ max (height_of x) (depth_at x k + height_of new) }
{}

/// A statement that may stand in a proof fits with fresh work variables for its variables, where so many may be drawn. So a
/// valid proof stays valid where an unknown step is made known by them, and where the part at a step has them throughout; the
/// part keeps its labels.
pub fn fresh_work_variables_fit(bytes: &[u8])
    ensures step { (c : Setting) (n id : ℕ) → may_stand c.bytes c.at id ≡ true → 1 ≤ n → n + length (variables_for c.bytes id) ≤ c.next → Fits c id (fresh_for c.bytes n id) }
    ensures placed { (at k id : ℕ) (goal : List WSym) (p : Proof) → IsValid bytes.now at goal p → 1 ≤ k → k ≤ size_of p.plain → may_stand bytes.now at id ≡ true → p.next + length (variables_for bytes.now id) ≤ most_works + 1 → size_of (placed_fresh bytes.now p k id).plain ≤ most_steps → height_of (placed_fresh bytes.now p k id).plain ≤ most_levels → IsValid bytes.now at goal (placed_fresh bytes.now p k id) }
    ensures part { (at k : ℕ) (goal : List WSym) (p : Proof) → IsValid bytes.now at goal p → 1 ≤ k → k ≤ size_of p.plain → p.next + draws_of bytes.now (step_at p.plain k) ≤ most_works + 1 → IsValid bytes.now at goal (with_fresh_in bytes.now p k) }
    ensures labels { (x : Plain) (n : ℕ) (t : List WSym) → labels_in (with_fresh bytes.now x n t) ≡ labels_in x }
{
    let _ = bytes;
}

/// The tree of a list of labels has these labels, and each tree whose steps fit comes of its own. The proof that labels begin
/// is this tree with fresh work variables, drawn in postorder from 1: it has a step for each label and as many levels as the
/// tree. It is valid for a goal without work variables, where each label may stand in the proof, and it isn't too large.
pub fn labels_begin_valid_proofs(bytes: &[u8])
    ensures labels { (goal : List WSym) (labels : List (Option ℕ)) (p : Proof) → fresh_proof_of bytes.now goal labels ≡ Some p → labels_in p.plain ≡ labels }
    ensures tree { (at : ℕ) (x : Plain) → AreFitting bytes.now at x → tree_of bytes.now (labels_in x) ≡ Some (bare x) }
    ensures own { (at : ℕ) (goal : List WSym) (x : Plain) → AreFitting bytes.now at x → fresh_proof_of bytes.now goal (labels_in x) ≡ Some (fresh_proof bytes.now goal x) }
    ensures size { (goal : List WSym) (labels : List (Option ℕ)) (p : Proof) → fresh_proof_of bytes.now goal labels ≡ Some p → size_of p.plain ≡ length labels }
    ensures height { (goal : List WSym) (labels : List (Option ℕ)) (x : Plain) (p : Proof) → tree_of bytes.now labels ≡ Some x → fresh_proof_of bytes.now goal labels ≡ Some p → height_of p.plain ≡ height_of x }
    ensures drawn { (goal : List WSym) (labels : List (Option ℕ)) (p : Proof) → fresh_proof_of bytes.now goal labels ≡ Some p → map sigma_of (steps_of p.plain) ≡ fresh_by bytes.now 1 labels }
    ensures next { (goal : List WSym) (labels : List (Option ℕ)) (p : Proof) → fresh_proof_of bytes.now goal labels ≡ Some p → p.next ≡ 1 + sum_by (draws_by bytes.now) labels }
    ensures valid { (at : ℕ) (goal : List WSym) (labels : List (Option ℕ)) (p : Proof) → fresh_proof_of bytes.now goal labels ≡ Some p → All (MayStand bytes.now at) labels → IsString (first_setting bytes.now at) goal → length labels ≤ most_steps → height_of p.plain ≤ most_levels → p.next ≤ most_works + 1 → IsValid bytes.now at goal p }
{
    let _ = bytes;
}

/// Step j of the part at a step is a step of the whole, j numbers after where the part begins. It may be replaced in either,
/// and its depth is that of the part and its own there. A child of a step stands where its tree ends. A tree that is put in
/// the place of a step stands there, and another may be put in its place. The labels of a part are a run of those of the
/// whole; the labels of a tree in its place come between those before it and those after it.
pub fn parts_are_nested()
    ensures step { (x : Plain) (k j : ℕ) → 1 ≤ k → k ≤ size_of x → 1 ≤ j → j ≤ size_of (step_at x k) → step_at x (number_in x k j) ≡ step_at (step_at x k) j }
    ensures puts { (new x : Plain) (k j : ℕ) → 1 ≤ k → k ≤ size_of x → 1 ≤ j → j ≤ size_of (step_at x k) → put x (number_in x k j) new ≡ put x k (put (step_at x k) j new) }
    ensures depth { (x : Plain) (k j : ℕ) → 1 ≤ k → k ≤ size_of x → 1 ≤ j → j ≤ size_of (step_at x k) → depth_at x (number_in x k j) ≡ depth_at x k + depth_at (step_at x k) j }
    ensures child { (x : Plain) (k : ℕ) (t : List WSym) (l : ℕ) (s : Pairs) (kids : List Plain) (i : ℕ) (d : Plain) → 1 ≤ k → k ≤ size_of x → step_at x k ≡ known t l s kids → i < length kids → step_at x (number_in x k (number_of_child kids i)) ≡ get_or kids i d }
    ensures stands { (new x : Plain) (k j : ℕ) → 1 ≤ k → k ≤ size_of x → 1 ≤ j → j ≤ size_of new → step_at (put x k new) (number_in x k j) ≡ step_at new j }
    ensures again { (a b x : Plain) (k : ℕ) → 1 ≤ k → k ≤ size_of x → put (put x k a) (number_in x k (size_of a)) b ≡ put x k b }
    ensures run { (x : Plain) (k : ℕ) → 1 ≤ k → k ≤ size_of x → labels_in (step_at x k) ≡ take (size_of (step_at x k)) (drop (k - size_of (step_at x k)) (labels_in x)) }
    ensures labels { (new x : Plain) (k : ℕ) → 1 ≤ k → k ≤ size_of x → labels_in (put x k new) ≡ take (k - size_of (step_at x k)) (labels_in x) ++ (labels_in new ++ drop k (labels_in x)) }
{}

/// A valid proof of a goal without work variables is what one substitution makes of the proof that its labels begin: the
/// one by which the values of its steps stand, in postorder, for the work variables from 1 on.
pub fn valid_proofs_are_instances(bytes: &[u8])
    ensures instance { (at : ℕ) (goal : List WSym) (p : Proof) → IsValid bytes.now at goal p → has_work goal ≡ false → bound (numbered 1 (values_in p.plain)) (fresh_proof bytes.now goal p.plain).plain ≡ p.plain }
    ensures counted { (at : ℕ) (goal : List WSym) (p : Proof) → IsValid bytes.now at goal p → length (values_in p.plain) ≡ draws_of bytes.now p.plain }
{
    let _ = bytes;
}

/// A tree whose steps fit is made of its rows, one after another: each takes the last trees that stand. With fresh work
/// variables its rows follow, from the last to the first, from its labels, a target and the number of the next work variable
/// after it. So it is with the part at a step of a valid proof, and with the proof that labels begin.
pub fn rows_follow_from_labels(bytes: &[u8])
    ensures made { (at : ℕ) (x : Plain) → AreFitting bytes.now at x → with_rows bytes.now [] (rows_of x) ≡ x ∷ [] }
    ensures rows { (at : ℕ) (x : Plain) → AreFitting bytes.now at x → (n : ℕ) (t : List WSym) → reverse (rows_of (with_fresh bytes.now x n t)) ≡ fresh_rows bytes.now (n + draws_of bytes.now x) (t ∷ []) (reverse (labels_in x)) }
    ensures fresh { (at : ℕ) (x : Plain) → AreFitting bytes.now at x → (n : ℕ) (t : List WSym) → AreFitting bytes.now at (with_fresh bytes.now x n t) }
    ensures part { (at k : ℕ) (goal : List WSym) (p : Proof) → IsValid bytes.now at goal p → 1 ≤ k → k ≤ size_of p.plain → AreFitting bytes.now at (step_at p.plain k) }
    ensures begun { (at : ℕ) (goal : List WSym) (labels : List (Option ℕ)) (p : Proof) → fresh_proof_of bytes.now goal labels ≡ Some p → All (MayStand bytes.now at) labels → (with_rows bytes.now [] (rows_of p.plain) ≡ p.plain ∷ []) × (reverse (rows_of p.plain) ≡ fresh_rows bytes.now p.next (goal ∷ []) (reverse labels)) }
{
    let _ = bytes;
}
