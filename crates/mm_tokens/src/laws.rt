//! What the pieces of a database are, in words of its bytes alone.

ghost use Rattle.std.specs.Prelude.{◌≡◌, List};
ghost use Rattle.mm_tokens.specs.Parts.{AreParts};
ghost use Rattle.mm_tokens.specs.Pieces.{pieces_of};
ghost use Rattle.mm_tokens.specs.declared.pieces.Piece.{Piece};

/// The pieces of any list of bytes stand in order and apart, and no token byte stands outside them. Each is a maximal run of token bytes
/// other than `$(`, or goes from a `$(` to the first `$)` after it, or is a `$(` that no `$)` follows. No other list of pieces is so.
#[tactic(auto, using(crate::proofs::Words::parts_of))]
pub fn pieces_are_parts(bytes: &[u8])
    ensures parts { AreParts bytes.now 0 (pieces_of bytes.now) }
    ensures only { (pieces : List Piece) → AreParts bytes.now 0 pieces → pieces ≡ pieces_of bytes.now }
{}
