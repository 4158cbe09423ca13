// What single tokens are in a definition.
ghost use Rattle.std.specs.Prelude.{◌≡◌};
ghost use Rattle.std.specs.Str.{bytes_eq};
ghost use Rattle.token.specs.Tables.{referred};
ghost use Rattle.definition.specs.Definitions.{member, reserved, hash, join, nameable};
ghost use Rattle.definition.specs.Words.{word_of, last_name};

use text::same_bytes;
use token::{Kind, TokenRef};

// What the parameter `...` is called.
pub(crate) const VARIABLE: &[u8] = b"__VA_ARGS__";

// Whether the name can be neither defined nor undefined.
pub fn is_reserved(name: &[u8]) -> bool
    ensures { result ≡ member name.now reserved }
{
    same_bytes(name, b"defined")
        || same_bytes(name, VARIABLE)
        || same_bytes(name, b"__LINE__")
        || same_bytes(name, b"__FILE__")
        || same_bytes(name, b"__STDC__")
        || same_bytes(name, b"__STDC_VERSION__")
}

pub fn is_hash(token: TokenRef<'_>) -> bool
    ensures { result ≡ hash (referred token.entry) }
{
    matches!(token.spelling, b"#" | b"%:")
}

pub fn is_join(token: TokenRef<'_>) -> bool
    ensures { result ≡ join (referred token.entry) }
{
    matches!(token.spelling, b"##" | b"%:%:")
}

// Whether the token may be a parameter.
pub(crate) fn is_nameable(token: TokenRef<'_>) -> bool
    ensures { result ≡ nameable (referred token.entry) }
{
    token.kind == Kind::Identifier && !token.spells(VARIABLE)
}

// Whether the token may be the last parameter.
pub(crate) fn is_last_name(token: TokenRef<'_>) -> bool
    ensures { result ≡ last_name (referred token.entry) }
{
    is_nameable(token) || token.spells(b"...")
}

// What the parameter is called in the replacement list.
pub fn parameter_name(token: TokenRef<'_>) -> &[u8]
    ensures { result.now ≡ word_of (referred token.entry) }
{
    if is_nameable(token) {
        token.spelling
    } else {
        VARIABLE
    }
}
