//! One part of a pattern, cut at its `*`.

ghost use Rattle.std.specs.Prelude.{◌≡◌, ◌≤◌, ◌+◌, ◌==◌, ◌&&◌, ◌<◌, ◌^◌, length, take, drop, IfNone, IfSome, None, Some};
ghost use Rattle.std.specs.List.{list_any};
ghost use Rattle.mm_trace.specs.Patterns.{spells, suffixes};
ghost use Rattle.mm_trace.specs.Segments.{IsCut, IsFirst, IsNowhere, begins, ends};

/// Whether a part of a pattern stands for a text.
pub fn is_spelled(part: &[u8], text: &[u8]) -> bool
    ensures { result ≡ spells part.now text.now }
{
    let Some(star) = find(b'*', part) else {
        return is_whole(part, text);
    };
    if star > text.len() {
        return false;
    }
    if !begins(&part[..star], text) {
        return false;
    }
    is_within(&part[star + 1..], &text[star..])
}

/// Whether bytes, of which none is `*`, stand for a text.
fn is_whole(part: &[u8], text: &[u8]) -> bool
    ensures { result ≡ (length part.now == length text.now && begins part.now text.now) }
{
    part.len() == text.len() && begins(part, text)
}

/// Whether a part stands for what is left of a text from some place on, as it does behind a `*`. The bytes up to the next
/// `*` are taken where they stand first: nothing is lost by that.
fn is_within(part: &[u8], text: &[u8]) -> bool
    ensures { result ≡ list_any (spells part.now) (suffixes text.now) }
{
    let mut back = part;
    let mut left = text;
    while let Some(star) = find(b'*', back) {
        let Some(at) = first_place(&back[..star], left) else {
            return false;
        };
        left = &left[at + star..];
        back = &back[star + 1..];
    }
    ends(back, left)
}

/// Whether a text begins with bytes like these, of which none is `*`.
#[tactic(auto, unfolding(crate::specs::Segments::begins))]
fn begins(front: &[u8], text: &[u8]) -> bool
    ensures { result ≡ begins front.now text.now }
{
    let Some((p, front)) = front.split_first() else {
        return true;
    };
    let Some((b, text)) = text.split_first() else {
        return false;
    };
    (*p == b'?' || *p == *b) && begins(front, text)
}

/// Whether it ends with them.
fn ends(back: &[u8], text: &[u8]) -> bool
    ensures { result ≡ ends back.now text.now }
{
    back.len() <= text.len() && begins(back, &text[text.len() - back.len()..])
}

/// The first place from which on a text begins with bytes like these.
#[tactic(auto, using(crate::proofs::SegmentLemmas::begins_short))]
fn first_place(front: &[u8], text: &[u8]) -> Option<usize>
    ensures none { IfNone result (IsNowhere front.now text.now) }
    ensures some { IfSome result (λ at. IsFirst front.now text.now at) }
    ensures fits { IfSome result (λ at. at + length front.now ≤ length text.now) }
    ensures small { IfSome result (λ at. at + length front.now < 2 ^ 64) }
{
    for at in 0..text.len() + 1 {
        if begins(front, &text[at..]) {
            return Some(at);
        }
    }
    None
}

/// The first place of a byte, at which bytes are cut.
pub fn find(byte: u8, bytes: &[u8]) -> Option<usize>
    ensures none { IfNone result (IsCut byte bytes.now bytes.now None) }
    ensures some { IfSome result (λ at. IsCut byte bytes.now (take at bytes.now) (Some (drop (at + 1) bytes.now))) }
    ensures within { IfSome result (λ at. at < length bytes.now) }
    ensures small { IfSome result (λ at. at + 1 < 2 ^ 64) }
{
    memchr::memchr(byte, bytes)
}
