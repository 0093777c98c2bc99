ghost use Rattle.std.specs.Prelude.{◌≡◌};
ghost use Rattle.std.specs.Str.{is_utf8};
ghost use Rattle.mm_base.specs.Name.{is_name_lem, is_plain_byte};
ghost use Rattle.std.specs.List.{list_all};

/// Whether the bytes may name a file: 1 to 4,096 bytes of UTF-8 without bytes 0 to 31 and 127.
pub fn is_name(name: &[u8]) -> bool
    ensures { result ≡ is_name_lem name.now }
{
    if name.is_empty() || name.len() > 4096 {
        return false;
    }
    is_plain(name) && is_text(name)
}

// Whether no byte is a control character of ASCII.
fn is_plain(bytes: &[u8]) -> bool
    ensures { result ≡ list_all is_plain_byte bytes.now }
{
    bytes.iter().all(|b| *b >= 32 && *b != 127)
}

// Whether the bytes are UTF-8.
fn is_text(bytes: &[u8]) -> bool
    ensures { result ≡ is_utf8 bytes.now }
{
    match std::str::from_utf8(bytes) {
        Ok(_) => true,
        Err(_) => false,
    }
}
