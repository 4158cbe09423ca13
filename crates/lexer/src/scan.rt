// The token at the front of bytes: its kind, and how long it is.
ghost use Rattle.std.specs.Prelude.{◌≡◌, ◌+◌, ◌^◌, ◌<◌, false, ◌&&◌, ◌||◌, [], ◌∷◌, length, Some, ◌==◌, slice_index};
ghost use Rattle.text.specs.Bytes.{name_byte};
ghost use Rattle.lexer.specs.Cutting.{scan as front_token, literal as literal_token, sign, exponent, white, name_length, number_length, literal_length};
ghost use Rattle.lexer.specs.Punctuators.{ones, twos, threes, fours, punctuators, longest};
ghost use Rattle.lexer.specs.Scanning.{scanned, class_of, symbol_token, starting, longest_of, some_length};

use text::bytes::{is_digit, is_mark, is_name_byte, quote};
use token::Kind;

// What the first bytes of a token tell apart.
#[derive(Clone, Copy)]
pub(crate) enum Class {
    Literal,
    WideLiteral,
    Number,
    Name,
    Symbol,
}

pub(crate) fn is_white(byte: u8) -> bool
    ensures { result ≡ white byte }
{
    matches!(byte, b' ' | b'\t' | 11..=12)
}

// Whether a number takes a sign along behind the byte.
fn is_exponent(byte: u8) -> bool
    ensures { result ≡ exponent byte }
{
    matches!(byte, b'e' | b'E' | b'p' | b'P')
}

// Whether the byte goes on with a number.
fn in_number(byte: u8, after_exponent: bool) -> bool
    ensures { result ≡ (name_byte byte || byte == 46 || (after_exponent && sign byte)) }
{
    is_name_byte(byte) || byte == b'.' || (after_exponent && matches!(byte, b'+' | b'-'))
}

fn name_length(bytes: &[u8]) -> usize
    ensures { result ≡ name_length bytes.now }
{
    for (len, byte) in bytes.iter().enumerate() {
        if !is_name_byte(*byte) {
            return len;
        }
    }
    bytes.len()
}

// How many bytes go on with a number whose first byte is a digit or a point.
fn number_length(bytes: &[u8]) -> usize
    ensures { result ≡ number_length false bytes.now }
{
    let mut after_exponent = false;
    for (len, byte) in bytes.iter().enumerate() {
        if !in_number(*byte, after_exponent) {
            return len;
        }
        after_exponent = is_exponent(*byte);
    }
    bytes.len()
}

// How many bytes a literal has behind the mark that opens it, its closing mark included.
fn literal_length(mark: u8, bytes: &[u8]) -> Option<usize>
    ensures { result ≡ literal_length mark false bytes.now }
{
    let mut escaped = false;
    for (at, byte) in bytes.iter().enumerate() {
        match quote(mark, escaped, *byte) {
            Some(next) => escaped = next,
            None => return Some(at + 1),
        }
    }
    None
}

fn is_single(a: u8) -> bool
    ensures { result ≡ starting ones (a ∷ []) }
{
    matches!(
        a,
        b'[' | b']'
            | b'('
            | b')'
            | b'{'
            | b'}'
            | b'.'
            | b'&'
            | b'*'
            | b'+'
            | b'-'
            | b'~'
            | b'!'
            | b'/'
            | b'%'
            | b'<'
            | b'>'
            | b'^'
            | b'|'
            | b'?'
            | b':'
            | b';'
            | b'='
            | b','
            | b'#'
    )
}

fn is_double(a: u8, b: u8) -> bool
    ensures { result ≡ starting twos (a ∷ b ∷ []) }
{
    match a {
        b'-' => matches!(b, b'>' | b'-' | b'='),
        b'<' => matches!(b, b'<' | b'=' | b':' | b'%'),
        b'%' => matches!(b, b'=' | b'>' | b':'),
        b'+' | b'>' | b'=' | b'&' | b'|' => b == a || b == b'=',
        b'!' | b'*' | b'/' | b'^' => b == b'=',
        b'#' => b == b'#',
        b':' => b == b'>',
        _ => false,
    }
}

fn is_triple(a: u8, b: u8, c: u8) -> bool
    ensures { result ≡ starting threes (a ∷ b ∷ c ∷ []) }
{
    matches!(
        (a, b, c),
        (b'.', b'.', b'.') | (b'<', b'<', b'=') | (b'>', b'>', b'=')
    )
}

fn is_fourfold(a: u8, b: u8, c: u8, d: u8) -> bool
    ensures { result ≡ starting fours (a ∷ b ∷ c ∷ d ∷ []) }
{
    matches!((a, b, c, d), (b'%', b':', b'%', b':'))
}

// The byte at an index, 0 past the end: no byte of a text is 0, so no test of one holds there.
fn byte_at(bytes: &[u8], at: usize) -> u8
    ensures { result ≡ slice_index bytes.now at }
{
    bytes.get(at).copied().unwrap_or(0)
}

// The length of the longest punctuator that four bytes begin with.
fn longest_of(a: u8, b: u8, c: u8, d: u8) -> Option<usize>
    ensures { result ≡ longest_of a b c d }
{
    if is_fourfold(a, b, c, d) {
        Some(4)
    } else if is_triple(a, b, c) {
        Some(3)
    } else if is_double(a, b) {
        Some(2)
    } else if is_single(a) {
        Some(1)
    } else {
        None
    }
}

// The length of the punctuator at the front.
fn punctuator_length(bytes: &[u8]) -> Option<usize>
    ensures { result ≡ some_length (longest punctuators bytes.now) }
{
    longest_of(
        byte_at(bytes, 0),
        byte_at(bytes, 1),
        byte_at(bytes, 2),
        byte_at(bytes, 3),
    )
}

// A literal with so many bytes up to the mark that opens it, and then the bytes.
fn literal(mark: u8, opening: usize, bytes: &[u8]) -> Option<(Kind, usize)>
    requires { opening + length bytes.now < 2 ^ 64 }
    ensures { scanned result ≡ literal_token mark opening bytes.now }
{
    match literal_length(mark, bytes)? {
        1 if mark == b'\'' => None,
        len if mark == b'\'' => Some((Kind::Character, opening + len)),
        len => Some((Kind::String, opening + len)),
    }
}

// A punctuator of so many bytes, or any other byte, where there is no punctuator.
fn symbol(len: Option<usize>) -> (Kind, usize)
    ensures { scanned (Some result) ≡ symbol_token len }
{
    match len {
        Some(len) => (Kind::Punctuator, len),
        None => (Kind::Other, 1),
    }
}

// What the first two bytes say of the token at the front.
fn classify(first: u8, second: u8) -> Class
    ensures { result ≡ class_of first second }
{
    if is_mark(first) {
        Class::Literal
    } else if first == b'L' && is_mark(second) {
        Class::WideLiteral
    } else if is_digit(first) || first == b'.' && is_digit(second) {
        Class::Number
    } else if is_name_byte(first) {
        Class::Name
    } else {
        Class::Symbol
    }
}

// The kind and the length of the token at the front: none for a literal without its closing mark, and for ''.
pub(crate) fn scan(bytes: &[u8]) -> Option<(Kind, usize)>
    ensures { scanned result ≡ front_token bytes.now }
{
    if bytes.is_empty() {
        return None;
    }
    let first = byte_at(bytes, 0);
    let second = byte_at(bytes, 1);
    match classify(first, second) {
        Class::Literal => literal(first, 1, &bytes[1..]),
        Class::WideLiteral => literal(second, 2, &bytes[2..]),
        Class::Number => Some((Kind::Number, 1 + number_length(&bytes[1..]))),
        Class::Name => Some((Kind::Identifier, 1 + name_length(&bytes[1..]))),
        Class::Symbol => Some(symbol(punctuator_length(bytes))),
    }
}
