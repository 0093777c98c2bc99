//! The values of a search.

use mm_subst::WStr;
use std::marker::Model;

/// A work variable, by its number, and its value so far.
#[derive(Debug, Drop)]
pub struct Value {
    pub number: u32,
    pub value: WStr,
}

impl Model for Value {
    ghost use Rattle.std.specs.Prelude.{List};
    ghost use Rattle.mm_subst.specs.declared.symbol.WSym.{WSym};
    ghost use Rattle.mm_subst.specs.declared.symbol.WSym.TheVariants.{Work};

    ghost Value = { WSym × List WSym };

    ghost view = { λ v. (Work v.number, v.value) };
}

/// The values of all work variables, in order of number.
#[derive(Debug, Drop)]
pub struct Values {
    pub each: Vec<Value>,
}

impl Model for Values {
    ghost use Rattle.std.specs.Prelude.{List};
    ghost use Rattle.mm_subst.specs.declared.symbol.WSym.{WSym};

    ghost Value = { List (WSym × List WSym) };

    ghost view = { λ v. v.each.items };
}
