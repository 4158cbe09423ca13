// Definitions are read here.
ghost use Rattle.std.specs.Prelude.{◌≡◌, None};
ghost use Rattle.std.specs.Option.{option_map};
ghost use Rattle.token.specs.Views.{view_tokens};
ghost use Rattle.definition.specs.Definitions.{define, behind_name, in_parentheses, parted, made};
ghost use Rattle.definition.specs.Meaning.{macro_of, shown_parts};

use crate::Definition;
use crate::list::{is_proper, is_proper_for};
use crate::parameters::are_parameters;
use crate::words::is_reserved;
use token::{Kind, Tokens};

// The definition that the tokens behind `define` are, or none where they break a constraint.
pub fn read_definition(mut tokens: Tokens<'_>) -> Option<Definition<'_>>
    ensures { option_map macro_of result ≡ define (view_tokens tokens.entry) }
{
    let name = tokens.next()?;
    if name.kind == Kind::Identifier && !is_reserved(name.spelling) {
        read_behind(name.spelling, tokens)
    } else {
        None
    }
}

// A `(` directly behind the name opens parameters; else white space stands before the list.
fn read_behind<'a>(name: &'a [u8], tokens: Tokens<'a>) -> Option<Definition<'a>>
    ensures { option_map macro_of result ≡ behind_name name.now (view_tokens tokens.entry) }
{
    let Some(first) = tokens.get(0) else {
        return object_like(name, tokens);
    };
    if first.marked {
        object_like(name, tokens)
    } else if first.spells(b"(") {
        function_like(name, tokens.behind(1))
    } else {
        None
    }
}

fn object_like<'a>(name: &'a [u8], list: Tokens<'a>) -> Option<Definition<'a>>
    ensures { option_map macro_of result ≡ made name.now None (view_tokens list.entry) }
{
    is_proper(list).then_some(Definition {
        name,
        parameters: None,
        list,
    })
}

// The tokens stand behind the `(`.
#[tactic(auto, using(crate::proofs::Names::parameters_as))]
fn function_like<'a>(name: &'a [u8], tokens: Tokens<'a>) -> Option<Definition<'a>>
    ensures { option_map macro_of result ≡ in_parentheses name.now (parted (view_tokens tokens.entry)) }
{
    let (inside, list) = parted(tokens)?;
    let proper = are_parameters(inside) && is_proper_for(inside, list);
    proper.then_some(Definition {
        name,
        parameters: Some(inside),
        list,
    })
}

// The tokens before the first `)` and those behind it.
fn parted(tokens: Tokens<'_>) -> Option<(Tokens<'_>, Tokens<'_>)>
    ensures { option_map shown_parts result ≡ parted (view_tokens tokens.entry) }
{
    let mut rest = tokens;
    let end = rest.position(|token| token.spells(b")"))?;
    Some((tokens.part(0, end), rest))
}
