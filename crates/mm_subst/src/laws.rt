//! What holds of each substitution.

ghost use Rattle.std.specs.Prelude.{◌≡◌, ◌++◌, None, All, List};
ghost use Rattle.mm_subst.specs.Substitutions.{Pairs, applied, then_by, value_at};
ghost use Rattle.mm_subst.specs.declared.symbol.WSym.{WSym};

/// A string of two parts is replaced part by part.
pub fn strings_join()
    ensures { (theta : Pairs) (s t : List WSym) → applied theta (s ++ t) ≡ applied theta s ++ applied theta t }
{}

/// Two substitutions, one after the other, are one.
pub fn twice_is_once()
    ensures { (theta sigma : Pairs) (s : List WSym) → applied (then_by theta sigma) s ≡ applied theta (applied sigma s) }
{}

/// A string in which no key occurs stays as it is.
pub fn without_keys_nothing_changes()
    ensures { (theta : Pairs) (s : List WSym) → All (λ x. value_at theta x ≡ None) s → applied theta s ≡ s }
{}
