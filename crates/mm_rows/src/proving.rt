//! A whole session.

use crate::databases::{CHAIN, CHAIN_PROVED};
use crate::session::{files_with, replayed};
use std::test::Fail;

/// A theorem is proved, saved, written and verified.
const PROVED: &str = "\
MM> READ chain.mm
Read: labelled 9, axioms 3, theorems 3.
MM> PROVE u
Steps 1, unknown 1, pending 0.
MM-PA> ASSIGN LAST up
Steps 4, unknown 3, pending 0.
MM-PA> ASSIGN LAST ax
Steps 5, unknown 3, pending 0.
MM-PA> ASSIGN LAST wp
Steps 5, unknown 2, pending 0.
MM-PA> ASSIGN LAST wq
Steps 5, unknown 1, pending 0.
MM-PA> ASSIGN LAST wim
Steps 7, unknown 2, pending 0.
MM-PA> ASSIGN LAST wp
Steps 7, unknown 1, pending 0.
MM-PA> ASSIGN LAST wp
Steps 7, unknown 0, pending 0.
MM-PA> SAVE NEW_PROOF
Saved u: complete, 7 steps.
MM-PA> WRITE SOURCE out.mm
Wrote out.mm.
MM-PA> EXIT
MM> VERIFY PROOF u
Checked 1: accepted 1, incomplete 0, faulty 0.
MM> EXIT
";

#[test]
fn a_theorem_is_proved_and_written(rt: HostRuntime) -> Result<(), Fail> {
    let alloc = rt.alloc();
    let mut files = files_with(alloc, b"chain.mm", CHAIN)?;
    let (status, text) = replayed(alloc, &mut files, PROVED)?;
    assert_eq!(rt; status, 0);
    assert_eq!(rt; text.as_slice(), PROVED.as_bytes());
    assert!(rt; files.look(b"out.mm") == Some(CHAIN_PROVED));
    assert!(rt; files.look(b"chain.mm") == Some(CHAIN));
    Ok(())
}
