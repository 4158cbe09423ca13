// The operator #.
ghost use Rattle.std.specs.Prelude.{◌≡◌, true, List, [], ◌∷◌, ◌++◌, is_ok, IfErr};
ghost use Rattle.text.specs.declared.FaultKind.TheVariants.{BadLiteral};
ghost use Rattle.item.specs.Tables.{shown};
ghost use Rattle.definition.specs.Definitions.{Macro};
ghost use Rattle.lexer.specs.Cutting.{one_token};
ghost use Rattle.replacement.specs.Joining.{escaped, written, is_string};
ghost use Rattle.replacement.specs.Meaning.{items_of};
ghost use Rattle.token.specs.Tables.{referred};
ghost use Rattle.operators.specs.Quoting.{quoted, spacing};
ghost use Rattle.operators.specs.Spellings.{spelt, is_short};

use crate::spelling::Spelling;
use item::{HideSet, TagView};
use lexer::one_token;
use text::{FaultKind, Full};
use token::{Kind, TokenRef};

// Makes a string literal of an argument; refused where that is no literal, or too long.
pub fn write_literal(
    spelling: &mut Spelling,
    argument: TagView<'_, HideSet>,
) -> Result<(), FaultKind>
    ensures string { (ms : List Macro) → is_ok result ≡ is_string (one_token (quoted (items_of ms (shown argument.entry)))) }
    ensures written { (ms : List Macro) → is_ok result ≡ true → spelt spelling.new ≡ quoted (items_of ms (shown argument.entry)) }
    ensures fault { IfErr result (λ f. f ≡ BadLiteral) }
{
    spelling.clear();
    if add_quoted(spelling, argument).is_ok() && is_string(one_token(spelling.bytes())) {
        Ok(())
    } else {
        Err(FaultKind::BadLiteral)
    }
}

fn is_string(kind: Option<Kind>) -> bool
    ensures { result ≡ is_string kind }
{
    matches!(kind, Some(Kind::String))
}

// The tokens between two quotes; refused where they are too many bytes.
fn add_quoted(spelling: &mut Spelling, argument: TagView<'_, HideSet>) -> Result<(), Full>
    ensures room { (ms : List Macro) → is_ok result ≡ is_short (spelt spelling.old ++ quoted (items_of ms (shown argument.entry))) }
    ensures added { (ms : List Macro) → is_ok result ≡ true → spelt spelling.new ≡ spelt spelling.old ++ quoted (items_of ms (shown argument.entry)) }
{
    spelling.add(b"\"")?;
    let mut first = true;
    for item in argument {
        add_spaced(spelling, first, item.token)?;
        first = false;
    }
    spelling.add(b"\"")
}

// A token in a literal, behind a space where it is marked and not the first.
fn add_spaced(spelling: &mut Spelling, first: bool, token: TokenRef<'_>) -> Result<(), Full>
    ensures room { is_ok result ≡ is_short (spelt spelling.old ++ spacing first (referred token.entry)) }
    ensures added { is_ok result ≡ true → spelt spelling.new ≡ spelt spelling.old ++ spacing first (referred token.entry) }
{
    if !first && token.marked {
        spelling.add(b" ")?;
    }
    add_written(spelling, token)
}

// A token as it stands in a literal.
fn add_written(spelling: &mut Spelling, token: TokenRef<'_>) -> Result<(), Full>
    ensures room { is_ok result ≡ is_short (spelt spelling.old ++ written token.entry.kind token.entry.spelling.now) }
    ensures added { is_ok result ≡ true → spelt spelling.new ≡ spelt spelling.old ++ written token.entry.kind token.entry.spelling.now }
{
    match token.kind {
        Kind::Character | Kind::String => add_escaped(spelling, token.spelling),
        _ => spelling.add(token.spelling),
    }
}

// Quotes and backslashes get a backslash in front.
fn add_escaped(spelling: &mut Spelling, bytes: &[u8]) -> Result<(), Full>
    ensures room { is_ok result ≡ is_short (spelt spelling.old ++ escaped bytes.now) }
    ensures added { is_ok result ≡ true → spelt spelling.new ≡ spelt spelling.old ++ escaped bytes.now }
{
    for byte in bytes {
        add_byte(spelling, *byte)?;
    }
    Ok(())
}

fn add_byte(spelling: &mut Spelling, byte: u8) -> Result<(), Full>
    ensures room { is_ok result ≡ is_short (spelt spelling.old ++ escaped (byte ∷ [])) }
    ensures added { is_ok result ≡ true → spelt spelling.new ≡ spelt spelling.old ++ escaped (byte ∷ []) }
{
    if byte == b'"' || byte == b'\\' {
        spelling.add(&[b'\\', byte])
    } else {
        spelling.add(&[byte])
    }
}
