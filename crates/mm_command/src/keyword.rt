//! Keywords, which have no case and may be shortened.

ghost use Rattle.std.specs.Prelude.{◌≡◌, ◌<◌, length, map, position, count_by, IfOk, IfSome};
ghost use Rattle.std.specs.Str.{str_eq_ignore_ascii_case};
ghost use Rattle.mm_command.specs.Keywords.{is_beginning, keyword_of};

/// Why a word is no keyword of its place.
#[derive(Clone, Copy)]
pub enum Unfit {
    /// It begins none.
    NoKeyword,
    /// It begins several, and is none.
    Ambiguous,
}

/// The place of the keyword that the word means: the whole of one, else the beginning of one alone.
#[tactic(auto, unfolding(crate::specs::Keywords::keyword_of))]
pub fn find_keyword(word: &[u8], keywords: &[&[u8]]) -> Result<usize, Unfit>
    ensures value { result ≡ keyword_of (map (λ k. k.now) keywords.now) word.now }
    ensures within { IfOk result (λ i. i < length keywords.now) }
{
    if let Some(place) = find_exact(word, keywords) {
        return Ok(place);
    }
    let Some(place) = find_begun(word, keywords) else {
        return Err(Unfit::NoKeyword);
    };
    if count_begun(word, keywords) == 1 {
        Ok(place)
    } else {
        Err(Unfit::Ambiguous)
    }
}

fn find_exact(word: &[u8], keywords: &[&[u8]]) -> Option<usize>
    ensures place { result ≡ position (λ k. str_eq_ignore_ascii_case k.now word.now) keywords.now }
    ensures within { IfSome result (λ i. i < length keywords.now) }
{
    keywords.iter().position(|k| is_same(word, k))
}

fn find_begun(word: &[u8], keywords: &[&[u8]]) -> Option<usize>
    ensures place { result ≡ position (λ k. is_beginning word.now k.now) keywords.now }
    ensures within { IfSome result (λ i. i < length keywords.now) }
{
    keywords.iter().position(|k| is_beginning(word, k))
}

fn count_begun(word: &[u8], keywords: &[&[u8]]) -> usize
    ensures { result ≡ count_by (λ k. is_beginning word.now k.now) keywords.now }
{
    keywords.iter().filter(|k| is_beginning(word, k)).count()
}

fn is_same(word: &[u8], keyword: &[u8]) -> bool
    ensures { result ≡ str_eq_ignore_ascii_case keyword.now word.now }
{
    keyword.eq_ignore_ascii_case(word)
}

fn is_beginning(word: &[u8], keyword: &[u8]) -> bool
    ensures { result ≡ is_beginning word.now keyword.now }
{
    word.len() <= keyword.len() && is_same(word, &keyword[..word.len()])
}
