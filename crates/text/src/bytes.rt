// What a byte may be.
ghost use Rattle.std.specs.Prelude.{◌≡◌};
ghost use Rattle.text.specs.Bytes.{digit, name_byte, admitted, mark as opens_literal, quoting};

pub fn is_digit(byte: u8) -> bool
    ensures { result ≡ digit byte }
{
    matches!(byte, b'0'..=b'9')
}

// Whether the byte may stand in a name.
pub fn is_name_byte(byte: u8) -> bool
    ensures { result ≡ name_byte byte }
{
    matches!(byte, b'a'..=b'z' | b'A'..=b'Z' | b'0'..=b'9' | b'_')
}

// Whether a text may hold the byte.
pub fn is_admitted(byte: u8) -> bool
    ensures { result ≡ admitted byte }
{
    is_name_byte(byte) || matches!(byte, 9..=12 | 32..=126)
}

// Whether the byte opens a literal.
pub fn is_mark(byte: u8) -> bool
    ensures { result ≡ opens_literal byte }
{
    byte == b'\'' || byte == b'"'
}

// The next byte of an open literal: none where it closes the literal, else whether the byte behind it is taken along.
pub fn quote(mark: u8, escaped: bool, byte: u8) -> Option<bool>
    ensures { result ≡ quoting mark escaped byte }
{
    if escaped {
        Some(false)
    } else if byte == mark {
        None
    } else {
        Some(byte == b'\\')
    }
}
