//! A test of a tree that grows by one step.

ghost use Rattle.std.specs.Prelude.{◌≡◌, ◌<◌, ◌≤◌, true, All, OnOk, length};
ghost use Rattle.mm_scope.specs.Contents.{labels_of};
ghost use Rattle.mm_subst.specs.Substitutions.{applied};
ghost use Rattle.mm_plain.specs.Numbers.{IsOwnLabel};
ghost use Rattle.mm_plain.specs.Premises.{premises_of};

use crate::premises::premises;
use crate::tree::Tree;
use mm_base::Steps;
use mm_scope::{Database, StmtId};
use mm_subst::{Subst, WStr, WSym, apply, statement};
use std::alloc::Global;
use std::marker::Brand;
use std::process::Abort;
use std::sync::ledger::{Blank, Ledger};
use std::test::Fail;

fn read(alloc: Global, text: &[u8]) -> Result<Database, Fail> {
    let bytes = Vec::from_slice(alloc, text)?;
    match Database::read(alloc, bytes) {
        Ok(database) => Ok(database),
        Err((_, fault)) => Err(fault.into()),
    }
}

/// Fails unless the premises of a statement are short under a substitution.
fn check_short(alloc: Global, db: &Database, id: StmtId, sigma: &Subst) -> Result<(), Fail>
    requires { id.0 < length (labels_of db.now) }
    ensures { OnOk result (All (λ h. length (applied sigma.now h) ≤ 32768) (premises_of db.now id.0)) }
{
    for premise in premises(db, id) {
        let hypothesis = statement(alloc, db, StmtId(*premise))?;
        let _ = apply(alloc, sigma, &hypothesis)?;
    }
    Ok(())
}

fn is_own(db: &Database, label: Option<u32>) -> bool
    ensures { result ≡ true → IsOwnLabel db.now label }
{
    match label {
        Some(id) => id < db.count(),
        None => true,
    }
}

/// Fails unless labels are those of the database's statements.
fn check_own(db: &Database, labels: &[Option<u32>]) -> Result<(), Fail>
    ensures { OnOk result (All (IsOwnLabel db.now) labels.now) }
{
    for label in labels {
        if !is_own(db, *label) {
            return Err("a label of another database".into());
        }
    }
    Ok(())
}

fn grow_in<L: Ledger, R: Abort>(rt: &R, alloc: Global, blank: Blank) -> Result<(), Fail>
    requires name { blank.name ≡ L.name }
    requires parts { blank.parts ≡ L.parts }
    requires some { 0 < L.parts }
{
    let db = read(
        alloc,
        b"$c ( ) -> wff $. $v p q $. wp $f wff p $. wq $f wff q $. wim $a wff ( p -> q ) $. w1 $p wff ( p -> p ) $= ? $.\n",
    )?;
    let wim = db.find(b"wim").ok_or("no wim")?;
    let w1 = db.find(b"w1").ok_or("no w1")?;
    let (wff, p, q) = (WSym::Const(3), WSym::Var(4), WSym::Var(5));
    let mut tree = Tree::start(alloc, &db, w1)?;
    assert_eq!(rt; tree.size(), 1);
    assert_eq!(rt; tree.label(1), None);
    let mut sigma = Subst::new(alloc);
    sigma.put(alloc, p, WStr::new(alloc, &[q])?)?;
    check_short(alloc, &db, wim, &sigma)?;
    let mut steps = Steps::<L>::new(blank);
    tree.place(alloc, &db, 1, wim, &sigma, &mut steps)?;
    assert_eq!(rt; tree.size(), 3);
    assert_eq!(rt; tree.height(), 2);
    assert_eq!(rt; tree.depth(1), 1);
    assert_eq!(rt; tree.next_work(), 1);
    assert_eq!(rt; tree.label(3), Some(wim));
    assert_eq!(rt; tree.target(alloc, 1)?.symbols(), [wff, q].as_slice());
    let labels = tree.labels(alloc)?;
    assert_eq!(rt; labels.as_slice(), [None, None, Some(2)].as_slice());
    assert_eq!(rt; tree.unknown_steps(), 2);
    assert_eq!(rt; tree.last_unknown(), Some(2));
    check_own(&db, labels.as_slice())?;
    assert_eq!(rt; tree.pending_steps(alloc, &db)?.as_slice(), [3].as_slice());
    Ok(())
}

#[test]
fn a_step_is_placed(rt: HostRuntime) -> Result<(), Fail> {
    grow_in::<Brand, _>(&rt, rt.alloc(), Blank::new(1))
}
