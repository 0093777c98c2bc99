//! A session whose proof is as high as a proof may be.

use crate::session::{files_with, told};
use std::test::Fail;

/// A statement that follows from itself.
const LADDER: &[u8] = b"\
$c |- a $.
${ h $e |- a $. s $a |- a $. $}
t $p |- a $= ? $.
";

/// How the session ends: the proof is 2,000 steps high, and stays so.
const LAST: &[u8] = b"\
MM-PA> ASSIGN LAST s
Steps 2000, unknown 1, pending 0.
MM-PA> ASSIGN LAST s
?C16: higher than 2000 steps
MM-PA> SAVE NEW_PROOF
Saved t: incomplete, 2000 steps.
MM-PA> \n";

#[test]
fn a_proof_is_2000_steps_high_at_most(rt: HostRuntime) -> Result<(), Fail> {
    let alloc = rt.alloc();
    let mut input = Vec::new(alloc);
    input.extend_from_slice(b"READ ladder.mm\nPROVE t\n")?;
    for _ in 0..2000 {
        input.extend_from_slice(b"ASSIGN LAST s\n")?;
    }
    input.extend_from_slice(b"SAVE NEW_PROOF\n")?;
    let mut files = files_with(alloc, b"ladder.mm", LADDER)?;
    let (status, text) = told(alloc, &mut files, input.as_slice())?;
    assert_eq!(rt; status, 1);
    assert!(rt; text.ends_with(LAST));
    Ok(())
}
