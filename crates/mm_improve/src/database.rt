//! The grammar of a theorem, read off its database.

ghost use Rattle.std.specs.Prelude.{◌≡◌, ◌<◌, ◌==◌, ◌++◌, ◌&&◌, filter, not, false, ℕ, [], length, map, slice_index_or, IfOk, All};
ghost use Rattle.std.specs.List.{list_all, list_any};
ghost use Rattle.mm_scope.specs.Contents.{labels_of, stated_at, active_at};
ghost use Rattle.mm_stated.specs.Stated.{is_essential, is_hypothesis};
ghost use Rattle.mm_subst.specs.declared.symbol.WSym.TheVariants.{Const};
ghost use Rattle.mm_subst.specs.Statements.{statement_of};
ghost use Rattle.mm_unify.specs.Forbidden.{heeded};
ghost use Rattle.mm_improve.specs.Assertions.{has_essential, may_be_used, plain_assertions};
ghost use Rattle.mm_improve.specs.Grammars.{assertion_of, grammar_of, hypothesis_of, split};
ghost use Rattle.mm_improve.specs.Narrow.{is_float_code, is_taken, narrowed};
ghost use Rattle.mm_improve.specs.Searches.{terms};

use crate::conclusion::{apart_of, itemized};
use mm_chart::{Hypothesis, Pattern, Rules};
use mm_plain::variables_for;
use mm_scope::{Database, Kind, StmtId, Sym};
use mm_subst::{Brackets, Memory, WSym, own_symbol, statement};
use mm_unify::Rule;
use std::alloc::Global;

/// Where proofs are searched for: the theorem, whether assertions with distinct pairs are left out, and the rule for
/// unifiers.
#[derive(Clone, Copy, Debug)]
pub struct Search {
    pub at: StmtId,
    pub no_distinct: bool,
    pub rule: Rule,
}

/// The first symbol of a statement.
#[tactic(auto, unfolding(mm_subst::specs::Statements::statement_of))]
fn code_of(db: &Database, id: StmtId) -> WSym
    requires { id.0 < length (labels_of db.now) }
    ensures { result ≡ (split (statement_of db.now id.0)).0 }
{
    match db.frame(id).conclusion.as_slice().split_first() {
        Some((number, _)) => own_symbol(db, Sym(*number)),
        None => WSym::Const(0),
    }
}

/// The first symbols of some statements.
fn codes_of(alloc: Global, db: &Database, ids: &[u32]) -> Result<Vec<WSym>, Memory>
    requires { All (λ m. m < length (labels_of db.now)) ids.now }
    ensures { IfOk result (λ v. v.items ≡ map (λ h. (split h).0) (map (statement_of db.now) ids.now)) }
{
    let mut codes = Vec::new(alloc);
    for id in ids {
        codes.push(code_of(db, StmtId(*id)))?;
    }
    Ok(codes)
}

/// The symbols of a statement behind the first.
pub fn text_of(alloc: Global, db: &Database, id: StmtId) -> Result<Vec<WSym>, Memory>
    requires { id.0 < length (labels_of db.now) }
    ensures { IfOk result (λ v. v.items ≡ (split (statement_of db.now id.0)).1) }
{
    let symbols = statement(alloc, db, id)?;
    match symbols.symbols().split_first() {
        Some((_, text)) => {
            let text = Vec::from_slice(alloc, text)?;
            Ok(text)
        }
        None => Ok(Vec::new(alloc)),
    }
}

/// A hypothesis.
fn hypothesis_of(alloc: Global, db: &Database, id: StmtId) -> Result<Hypothesis, Memory>
    requires { id.0 < length (labels_of db.now) }
    ensures { IfOk result (λ h. h ≡ hypothesis_of db.now id.0) }
{
    let symbols = text_of(alloc, db, id)?;
    Ok(Hypothesis {
        id: id.0,
        code: code_of(db, id),
        symbols,
    })
}

/// An assertion.
#[tactic(auto, unfolding(mm_plain::specs::Premises::premises_of))]
fn pattern_of(alloc: Global, db: &Database, id: StmtId) -> Result<Pattern, Memory>
    requires own { id.0 < length (labels_of db.now) }
    requires assertion { is_hypothesis (stated_at db.now id.0).kind ≡ false }
    ensures { IfOk result (λ a. a ≡ assertion_of db.now id.0) }
{
    let frame = db.frame(id);
    let keys = variables_for(alloc, db, id)?;
    let codes = codes_of(alloc, db, frame.mandatory.as_slice())?;
    let text = text_of(alloc, db, id)?;
    let conclusion = itemized(alloc, keys.as_slice(), codes.as_slice(), text.as_slice())?;
    let apart = apart_of(alloc, conclusion.order.as_slice(), frame.pairs.as_slice())?;
    Ok(Pattern {
        id: id.0,
        code: code_of(db, id),
        items: conclusion.items,
        apart,
    })
}

/// Whether a statement is a `$e`.
pub fn is_essential(db: &Database, id: StmtId) -> bool
    requires { id.0 < length (labels_of db.now) }
    ensures { result ≡ is_essential (stated_at db.now id.0).kind }
{
    match db.kind(id) {
        Kind::Essential => true,
        Kind::Float | Kind::Axiom | Kind::Theorem => false,
    }
}

/// Whether one of some statements is a `$e`.
fn some_essential(db: &Database, ids: &[u32]) -> bool
    requires { All (λ m. m < length (labels_of db.now)) ids.now }
    ensures { result ≡ list_any (λ m. is_essential (stated_at db.now m).kind) ids.now }
{
    for id in ids {
        if is_essential(db, StmtId(*id)) {
            return true;
        }
    }
    false
}

/// Whether an assertion has a `$e` hypothesis.
#[tactic(auto, unfolding(mm_plain::specs::Premises::premise_ids))]
pub fn has_essential(db: &Database, id: StmtId) -> bool
    requires { id.0 < length (labels_of db.now) }
    ensures { result ≡ has_essential db.now id.0 }
{
    match db.kind(id) {
        Kind::Float | Kind::Essential => false,
        Kind::Axiom | Kind::Theorem => some_essential(db, db.frame(id).mandatory.as_slice()),
    }
}

fn occurs(variable: u32, symbols: &[u32]) -> bool
    ensures { result ≡ list_any (λ n. variable == n) symbols.now }
{
    for symbol in symbols {
        if variable == *symbol {
            return true;
        }
    }
    false
}

/// Whether all variables are among some symbols.
fn all_occur(variables: &[u32], symbols: &[u32]) -> bool
    ensures { result ≡ list_all (λ v. list_any (λ n. v == n) symbols.now) variables.now }
{
    for variable in variables {
        if !occurs(*variable, symbols) {
            return false;
        }
    }
    true
}

/// Whether a statement is an assertion that may be used.
pub fn may_be_used(alloc: Global, db: &Database, id: StmtId, search: Search) -> Result<bool, Memory>
    requires { id.0 < length (labels_of db.now) }
    ensures { IfOk result (λ b. b ≡ may_be_used (terms db.now search) id.0) }
{
    match db.kind(id) {
        Kind::Float | Kind::Essential => Ok(false),
        Kind::Axiom | Kind::Theorem => may_use_assertion(alloc, db, id, search),
    }
}

/// The same of an assertion.
fn may_use_assertion(
    alloc: Global,
    db: &Database,
    id: StmtId,
    search: Search,
) -> Result<bool, Memory>
    requires own { id.0 < length (labels_of db.now) }
    requires assertion { is_hypothesis (stated_at db.now id.0).kind ≡ false }
    ensures { IfOk result (λ b. b ≡ may_be_used (terms db.now search) id.0) }
{
    let frame = db.frame(id);
    if search.no_distinct && !frame.pairs.as_slice().is_empty() {
        return Ok(false);
    }
    let variables = variables_for(alloc, db, id)?;
    if !all_occur(variables.as_slice(), frame.conclusion.as_slice()) {
        return Ok(false);
    }
    Ok(!db.usage_guarded(id))
}

/// Whether a statement is an assertion without `$e` that may be used.
fn is_plain(alloc: Global, db: &Database, id: StmtId, search: Search) -> Result<bool, Memory>
    requires { id.0 < length (labels_of db.now) }
    ensures { IfOk result (λ b. b ≡ (may_be_used (terms db.now search) id.0 && not (has_essential db.now id.0))) }
{
    if has_essential(db, id) {
        return Ok(false);
    }
    may_be_used(alloc, db, id, search)
}

/// Whether a symbol is the typecode of some `$f`.
pub fn is_float_code(db: &Database, code: WSym) -> bool
    ensures { result ≡ is_float_code db.now code }
{
    match code {
        WSym::Const(number) => db.typecode_of_float(Sym(number)),
        WSym::Var(_) | WSym::Work(_) => false,
    }
}

/// Whether a statement is an assertion without `$e` that may be used, and its typecode is taken.
fn is_plain_taken(
    alloc: Global,
    db: &Database,
    id: StmtId,
    search: Search,
    narrow: bool,
) -> Result<bool, Memory>
    requires { id.0 < length (labels_of db.now) }
    ensures { IfOk result (λ b. b ≡ (is_taken db.now narrow (assertion_of db.now id.0).code && (may_be_used (terms db.now search) id.0 && not (has_essential db.now id.0)))) }
{
    if narrow && !is_float_code(db, code_of(db, id)) {
        return Ok(false);
    }
    is_plain(alloc, db, id, search)
}

/// The plain assertions before a theorem; or those alone whose typecodes are typecodes of `$f`.
fn patterns(
    alloc: Global,
    db: &Database,
    search: Search,
    narrow: bool,
) -> Result<Vec<Pattern>, Memory>
    requires { search.at.0 < length (labels_of db.now) }
    ensures { IfOk result (λ v. v.items ≡ filter (λ a. is_taken db.now narrow a.code) (map (assertion_of db.now) (plain_assertions (terms db.now search)))) }
{
    let mut patterns = Vec::new(alloc);
    for id in 0..search.at.0 {
        if is_plain_taken(alloc, db, StmtId(id), search, narrow)? {
            patterns.push(pattern_of(alloc, db, StmtId(id))?)?;
        }
    }
    Ok(patterns)
}

/// The hypotheses with some ids.
fn hypotheses(alloc: Global, db: &Database, ids: &[u32]) -> Result<Vec<Hypothesis>, Memory>
    requires { All (λ m. m < length (labels_of db.now)) ids.now }
    ensures { IfOk result (λ v. v.items ≡ map (hypothesis_of db.now) ids.now) }
{
    let mut hypotheses = Vec::new(alloc);
    for id in ids {
        hypotheses.push(hypothesis_of(alloc, db, StmtId(*id))?)?;
    }
    Ok(hypotheses)
}

fn heeded(db: &Database, rule: Rule) -> Option<Brackets>
    ensures { result ≡ heeded db.now rule }
{
    if rule.brackets {
        Some(Brackets::of(db))
    } else {
        None
    }
}

/// The grammar of a theorem: its active hypotheses, and the plain assertions before it, in the order of the database.
pub fn rules(alloc: Global, db: &Database, search: Search) -> Result<Rules, Memory>
    requires own { search.at.0 < length (labels_of db.now) }
    requires assertion { is_hypothesis (stated_at db.now search.at.0).kind ≡ false }
    ensures { IfOk result (λ g. g ≡ grammar_of (terms db.now search)) }
{
    rules_for(alloc, db, search, false)
}

/// That grammar, or what it has for typecodes of `$f` alone.
pub fn rules_for(
    alloc: Global,
    db: &Database,
    search: Search,
    narrow: bool,
) -> Result<Rules, Memory>
    requires own { search.at.0 < length (labels_of db.now) }
    requires assertion { is_hypothesis (stated_at db.now search.at.0).kind ≡ false }
    ensures { IfOk result (λ g. g ≡ narrowed (is_taken db.now narrow) (grammar_of (terms db.now search))) }
{
    let ids = db.frame(search.at).active.to_vec(alloc)?;
    let hypotheses = hypotheses(alloc, db, ids.as_slice())?;
    let assertions = patterns(alloc, db, search, narrow)?;
    let groups = db.parted(alloc, search.at)?;
    Ok(Rules {
        hypotheses,
        assertions,
        brackets: heeded(db, search.rule),
        groups,
    })
}
