//! Calls that take memory and that no session reaches.

use mm_scope::{Database, StmtId};
use mm_tables::Pair;
use mm_tokens::{Span, Token, tokens};
use std::alloc::Global;
use std::test::Fail;

/// A theorem with hypotheses and pairs, some of which no longer hold at it.
const NESTED: &[u8] = b"$c wff |- $. $v x y z $.
wy $f wff y $. wx $f wff x $. wz $f wff z $.
${ $d x y z $.
  ${ $v u $. $d z u $. $d x u $. ax $a |- x y $. $}
  e $e |- z $. th $a |- x $.
$}
";

fn read(alloc: Global, text: &[u8]) -> Result<Database, Fail> {
    let bytes = Vec::from_slice(alloc, text)?;
    match Database::read(alloc, bytes) {
        Ok(database) => Ok(database),
        Err((_, fault)) => Err(fault.into()),
    }
}

/// The active hypotheses of a statement.
fn active(alloc: Global, database: &Database, id: u32) -> Result<Vec<u32>, Fail> {
    if id >= database.count() {
        return Err("no such statement".into());
    }
    Ok(database.frame(StmtId(id)).active.to_vec(alloc)?)
}

/// The active pairs of a statement.
fn active_pairs(alloc: Global, database: &Database, id: u32) -> Result<Vec<Pair>, Fail> {
    if id >= database.count() {
        return Err("no such statement".into());
    }
    Ok(database.frame(StmtId(id)).active_pairs.to_vec(alloc)?)
}

fn pair(first: u32, second: u32) -> Pair {
    Pair { first, second }
}

#[test]
fn active_hypotheses_are_listed(rt: HostRuntime) -> Result<(), Fail> {
    let database = read(rt.alloc(), NESTED)?;
    let listed = active(rt.alloc(), &database, 5)?;
    assert_eq!(rt; listed.as_slice(), [0, 1, 2, 4].as_slice());
    Ok(())
}

#[test]
fn active_pairs_are_listed(rt: HostRuntime) -> Result<(), Fail> {
    let database = read(rt.alloc(), NESTED)?;
    let listed = active_pairs(rt.alloc(), &database, 5)?;
    let wanted = [pair(3, 2), pair(3, 4), pair(2, 4)];
    assert_eq!(rt; listed.as_slice(), wanted.as_slice());
    Ok(())
}

#[test]
fn tokens_and_comments_are_listed(rt: HostRuntime) -> Result<(), Fail> {
    let bytes = b"$c |- $.\x0c$( a $( b$) $)\n";
    let list = tokens(rt.alloc(), bytes)?;
    assert_eq!(rt; list.count(), 3);
    assert_eq!(rt; list.token(2), Token { start: 3, end: 5 });
    assert_eq!(rt; list.comments(), [Span { start: 9, end: 23 }].as_slice());
    Ok(())
}
