//! What holds of texts of words.

ghost use Rattle.std.specs.Prelude.{◌≡◌, ◌≢◌, ℕ, ◌-◌, true, false, List, All, length, map, slice_index};
ghost use Rattle.mm_tokens.specs.Bytes.{is_bad, is_white};
ghost use Rattle.mm_tokens.specs.Pieces.{pieces_of, tokens_in};
ghost use Rattle.mm_layout.specs.Normal.{lines_of, normal_text};
ghost use Rattle.mm_layout.specs.Lines.{Group, AreGroups, line_of};
ghost use Rattle.mm_layout.specs.Words.{IsWord, text_at};

/// The lines of tokens begin with six spaces and part their tokens by one; each has at most 79 bytes or one token alone, and no line has
/// room for the token after it. No other lines are so.
pub fn lines_are_filled()
    ensures groups { (tokens : List (List ℕ)) → (groups : List Group) × (AreGroups tokens groups × (lines_of tokens ≡ map line_of groups)) }
    ensures only { (tokens : List (List ℕ)) (groups : List Group) → AreGroups tokens groups → lines_of tokens ≡ map line_of groups }
{}

/// The text of words has no byte but those of tokens and white space, and no `$`. It begins and ends with white space.
pub fn texts_are_clean()
    ensures good { (words : List (List ℕ)) → All IsWord words → All (λ b. is_bad b ≡ false) (normal_text words) }
    ensures dollarless { (words : List (List ℕ)) → All IsWord words → All (λ b. b ≢ 36) (normal_text words) }
    ensures front { (words : List (List ℕ)) → is_white (slice_index (normal_text words) 0) ≡ true }
    ensures back { (words : List (List ℕ)) → is_white (slice_index (normal_text words) (length (normal_text words) - 1)) ≡ true }
{}

/// The tokens of the text of words are these words, in order.
pub fn tokens_come_back()
    ensures { (words : List (List ℕ)) → All IsWord words → map (text_at (normal_text words)) (tokens_in (pieces_of (normal_text words))) ≡ words }
{}
