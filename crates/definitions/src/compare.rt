// Definitions are compared here.
ghost use Rattle.std.specs.Prelude.{◌≡◌};
ghost use Rattle.std.specs.Option.{option_map};
ghost use Rattle.token.specs.Tables.{referred};
ghost use Rattle.token.specs.Views.{view_tokens};
ghost use Rattle.definition.specs.Meaning.{macro_of, names_of};
ghost use Rattle.definitions.specs.Blocks.{spellings};
ghost use Rattle.definitions.specs.InForce.{same_tokens, same_list, same_words, same_parameters, same as same_definition};
ghost use Rattle.definitions.specs.Layout.{same_token};
ghost use Rattle.definitions.specs.Meaning.{stored_macro};

use crate::Macro;
use definition::{Definition, ParameterNames};
use token::{TokenRef, Tokens};

// Whether both have the same spelling and the same mark.
fn is_same(left: TokenRef<'_>, right: TokenRef<'_>) -> bool
    ensures { result ≡ same_token (referred left.entry) (referred right.entry) }
{
    left.spells(right.spelling) && left.marked == right.marked
}

// Whether both have the same spellings and marks.
fn same_tokens(left: Tokens<'_>, right: Tokens<'_>) -> bool
    ensures { result ≡ same_tokens (view_tokens left.entry) (view_tokens right.entry) }
{
    left.len() == right.len() && left.zip(right).all(|(token, other)| is_same(token, other))
}

// Whether both lists are the same: the mark of the first token does not matter.
fn same_list(mut left: Tokens<'_>, mut right: Tokens<'_>) -> bool
    ensures { result ≡ same_list (view_tokens left.entry) (view_tokens right.entry) }
{
    match (left.next(), right.next()) {
        (Some(first), Some(other)) => first.spells(other.spelling) && same_tokens(left, right),
        (None, None) => true,
        _ => false,
    }
}

// Whether the tokens are spelled as the names are.
fn same_words(tokens: Tokens<'_>, mut names: ParameterNames<'_>) -> bool
    ensures { result ≡ same_words (spellings (view_tokens tokens.entry)) (names_of names.entry) }
{
    for token in tokens {
        if !matches!(names.next(), Some(name) if token.spells(name)) {
            return false;
        }
    }
    names.next().is_none()
}

fn same_parameters(tokens: Option<Tokens<'_>>, names: Option<ParameterNames<'_>>) -> bool
    ensures { result ≡ same_parameters (option_map (λ v. spellings (view_tokens v)) tokens.entry) (option_map names_of names.entry) }
{
    match (tokens, names) {
        (Some(tokens), Some(names)) => same_words(tokens, names),
        (None, None) => true,
        _ => false,
    }
}

// Whether the definition is the same as the one in force.
pub(crate) fn same_macro(stored: Macro<'_>, definition: Definition<'_>) -> bool
    ensures { result ≡ same_definition (stored_macro stored.entry) (macro_of definition.entry) }
{
    same_parameters(stored.parameters, definition.parameter_names())
        && same_list(stored.list, definition.list)
}
