//! The words of a line.

ghost use Rattle.std.specs.Prelude.{◌≡◌, ◌+◌, ◌<◌, ◌≤◌, ◌^◌, not, ◌==◌, [], ◌∷◌, None, Some, length, position, IfSome, IfNone};
ghost use Rattle.mm_command.specs.Words.{is_blank, ends_word, count_before, past_blanks, cut_at_quote, cut, pieces_of, piece_of};

/// A word of a line.
#[derive(Clone, Copy)]
pub enum Word<'a> {
    /// Its bytes, without quotes.
    Plain(&'a [u8]),
    /// `/` outside quotes.
    Slash,
    /// `=` outside quotes.
    Equals,
    /// A quote that isn't closed.
    Unclosed,
}

/// The words of a line that are still to be judged.
#[derive(Clone, Copy)]
pub struct Words<'a> {
    /// The bytes of the line that are left.
    pub rest: &'a [u8],
    /// The number of the next word, from 1.
    pub number: u32,
}

impl<'a> Words<'a> {
    /// All words of a line.
    pub fn new(line: &'a [u8]) -> Words<'a>
        ensures rest { result.rest.now ≡ line.now }
        ensures number { result.number ≡ 1 }
    {
        Words {
            rest: line,
            number: 1,
        }
    }

    /// The next word, and the words behind it.
    pub fn next(self) -> Option<(Word<'a>, Words<'a>)>
        requires { self.number + length self.rest.now < 2 ^ 32 }
        ensures word { IfSome result (λ t. pieces_of self.entry.rest.now ≡ piece_of t.0 ∷ pieces_of t.1.rest.now) }
        ensures number { IfSome result (λ t. t.1.number ≡ self.entry.number + 1) }
        ensures room { IfSome result (λ t. t.1.number + length t.1.rest.now ≤ self.entry.number + length self.entry.rest.now) }
        ensures end { IfNone result (pieces_of self.entry.rest.now ≡ []) }
    {
        let Some((word, rest)) = cut(skip_blanks(self.rest)) else {
            return None;
        };
        Some((
            word,
            Words {
                rest,
                number: self.number + 1,
            },
        ))
    }
}

/// The line from its first word on.
pub fn skip_blanks(line: &[u8]) -> &[u8]
    ensures { result.now ≡ past_blanks line.now }
{
    &line[count_blanks(line)..]
}

// The first word of bytes that begin with no blank, and the bytes behind it.
fn cut<'a>(bytes: &'a [u8]) -> Option<(Word<'a>, &'a [u8])>
    ensures some { IfSome result (λ t. cut bytes.now ≡ Some (record { piece = piece_of t.0; rest = t.1.now })) }
    ensures none { IfNone result (cut bytes.now ≡ None) }
{
    let Some((first, rest)) = bytes.split_first() else {
        return None;
    };
    match *first {
        b'/' => Some((Word::Slash, rest)),
        b'=' => Some((Word::Equals, rest)),
        b'"' | b'\'' => Some(cut_at_quote(*first, rest)),
        _ => {
            let place = count_word(rest);
            Some((Word::Plain(&bytes[..place + 1]), &rest[place..]))
        }
    }
}

fn cut_at_quote<'a>(quote: u8, bytes: &'a [u8]) -> (Word<'a>, &'a [u8])
    ensures { record { piece = piece_of result.0; rest = result.1.now } ≡ cut_at_quote bytes.now (position (λ b. b == quote) bytes.now) }
{
    match find_byte(quote, bytes) {
        Some(place) => (Word::Plain(&bytes[..place]), &bytes[place + 1..]),
        None => (Word::Unclosed, &[]),
    }
}

fn count_blanks(bytes: &[u8]) -> usize
    ensures count { result ≡ count_before (λ b. not (is_blank b)) bytes.now }
    ensures within { result ≤ length bytes.now }
{
    find_word(bytes).unwrap_or(bytes.len())
}

fn count_word(bytes: &[u8]) -> usize
    ensures count { result ≡ count_before ends_word bytes.now }
    ensures within { result ≤ length bytes.now }
{
    find_word_end(bytes).unwrap_or(bytes.len())
}

fn find_word(bytes: &[u8]) -> Option<usize>
    ensures place { result ≡ position (λ b. not (is_blank b)) bytes.now }
    ensures within { IfSome result (λ n. n < length bytes.now) }
{
    bytes.iter().position(|b| *b != b' ' && *b != b'\t')
}

fn find_word_end(bytes: &[u8]) -> Option<usize>
    ensures place { result ≡ position ends_word bytes.now }
    ensures within { IfSome result (λ n. n < length bytes.now) }
{
    bytes
        .iter()
        .position(|b| *b == b' ' || *b == b'\t' || *b == b'/' || *b == b'=')
}

fn find_byte(byte: u8, bytes: &[u8]) -> Option<usize>
    ensures place { result ≡ position (λ b. b == byte) bytes.now }
    ensures within { IfSome result (λ n. n < length bytes.now) }
{
    bytes.iter().position(|b| *b == byte)
}
