// Directives are read here.
use definition::is_hash;
use text::{Fault, FaultKind};
use token::{Kind, TokenRef, Tokens};

const MOST_TOKENS: usize = 1024;

// What a directive says, with the line of its `#` where it can be refused later.
#[derive(Clone, Copy)]
pub(crate) enum Directive<'a> {
    Dropped,
    Define(u32, Tokens<'a>),
    Undefine(u32, &'a [u8]),
    NotHandled,
}

// The directive that a line is, or its fault; none where the line is text.
pub(crate) fn directive_of(line: Tokens<'_>) -> Option<Result<Directive<'_>, Fault>> {
    let first = line.get(0)?;
    if !is_hash(first) {
        return None;
    }
    let Some(name) = line.get(1) else {
        return Some(Ok(Directive::Dropped));
    };
    Some(named(first.line, name, line))
}

fn named<'a>(at: u32, name: TokenRef<'a>, line: Tokens<'a>) -> Result<Directive<'a>, Fault> {
    let rest = line.behind(2);
    match name.spelling {
        b"pragma" => Ok(Directive::Dropped),
        _ if line.len() > MOST_TOKENS => Err(FaultKind::ManyTokens.at(at)),
        b"define" => Ok(Directive::Define(at, rest)),
        b"undef" => undefine(at, rest),
        b"include"
        | b"if"
        | b"ifdef"
        | b"ifndef"
        | b"elif"
        | b"else"
        | b"endif"
        | b"line"
        | b"error" => Ok(Directive::NotHandled),
        _ => Err(FaultKind::UnknownDirective.at(at)),
    }
}

// `undef` takes one identifier.
fn undefine(at: u32, rest: Tokens<'_>) -> Result<Directive<'_>, Fault> {
    match rest.get(0) {
        Some(name) if rest.len() == 1 && matches!(name.kind, Kind::Identifier) => {
            Ok(Directive::Undefine(at, name.spelling))
        }
        _ => Err(FaultKind::BadDirective.at(at)),
    }
}
