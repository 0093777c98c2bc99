//! The kinds of bytes.

ghost use Rattle.std.specs.Prelude.{◌≡◌, ◌<◌, length, position, IfSome};
ghost use Rattle.mm_tokens.specs.Bytes.{is_graphic, is_white, is_bad};

/// Whether the byte may stand in a token: 33 to 126, the printable ASCII characters without space (Metamath book, section 4.1.1).
pub fn is_graphic(byte: u8) -> bool
    ensures { result ≡ is_graphic byte }
{
    33 <= byte && byte <= 126
}

/// Whether the byte is white space: space, tab, line feed, carriage return or form feed.
pub fn is_white(byte: u8) -> bool
    ensures { result ≡ is_white byte }
{
    byte == b' ' || byte == b'\t' || byte == b'\n' || byte == b'\r' || byte == 12
}

/// The place of the first byte that is neither a token's nor white space, counted from 0.
pub fn bad_byte(bytes: &[u8]) -> Option<usize>
    ensures value { result ≡ position is_bad bytes.now }
    ensures within { IfSome result (λ place. place < length bytes.now) }
{
    bytes
        .iter()
        .position(|byte| !is_graphic(*byte) && !is_white(*byte))
}
