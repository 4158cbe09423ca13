// Single tokens at the front of a line, and texts that are exactly one token.
ghost use Rattle.std.specs.Prelude.{◌≡◌, not, ◌&&◌, length, ◌==◌, nat_le};
ghost use Rattle.text.specs.Bytes.{admitted};
ghost use Rattle.lexer.specs.Cutting.{scan as front_token, token, front, white, fitting, one_token};
ghost use Rattle.lexer.specs.Scanning.{measured};

use crate::scan::{is_white, scan};
use text::bytes::is_admitted;
use text::{Fault, FaultKind};
use token::Kind;

// The bytes that a token may have.
const LONGEST_TOKEN: usize = 1023;

// The kind and the length of the token at the front, or the fault there, on the given line.
pub(crate) fn measure(bytes: &[u8], line: u32) -> Result<(Kind, usize), Fault>
    ensures { result ≡ measured (front_token bytes.now) line }
{
    match scan(bytes) {
        Some((kind, len)) => limited(kind, len, line),
        None => Err(FaultKind::OpenLiteral.at(line)),
    }
}

// The kind and the length of a token that is not too long.
fn limited(kind: Kind, len: usize, line: u32) -> Result<(Kind, usize), Fault>
    ensures { result ≡ measured (token kind len) line }
{
    if len <= LONGEST_TOKEN {
        Ok((kind, len))
    } else {
        Err(FaultKind::LongToken.at(line))
    }
}

// Whether the byte may stand in a line.
fn fits_line(byte: u8) -> bool
    ensures { result ≡ (admitted byte && not (byte == 10)) }
{
    is_admitted(byte) && byte != b'\n'
}

// Whether all of the bytes may stand in a line.
fn all_fit_line(bytes: &[u8]) -> bool
    ensures { result ≡ fitting bytes.now }
{
    bytes.iter().all(|byte| fits_line(*byte))
}

fn starts_white(bytes: &[u8]) -> bool
    ensures { result ≡ front white bytes.now }
{
    matches!(bytes, [first, ..] if is_white(*first))
}

// Whether the bytes may be a token of a line, as far as single bytes and their number say.
fn may_be_token(bytes: &[u8]) -> bool
    ensures { result ≡ (fitting bytes.now && nat_le (length bytes.now) 1023 && not (front white bytes.now)) }
{
    all_fit_line(bytes) && bytes.len() <= LONGEST_TOKEN && !starts_white(bytes)
}

// The kind of bytes that are exactly one token.
pub fn one_token(spelling: &[u8]) -> Option<Kind>
    ensures { result ≡ one_token spelling.now }
{
    if !may_be_token(spelling) {
        return None;
    }
    match scan(spelling) {
        Some((kind, len)) if len == spelling.len() => Some(kind),
        _ => None,
    }
}
