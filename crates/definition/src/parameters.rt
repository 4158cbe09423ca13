// The parameters of a function-like definition.
ghost use Rattle.std.specs.Prelude.{◌≡◌, is_some};
ghost use Rattle.std.specs.Iterator.{YieldsFirstRef, item_count};
ghost use Rattle.token.specs.Tables.{referred};
ghost use Rattle.token.specs.Views.{view_tokens};
ghost use Rattle.definition.specs.Definitions.{member, names, parameters};
ghost use Rattle.definition.specs.Meaning.{names_of};
ghost use Rattle.definition.specs.Parameters.{words, fresh_name};

use crate::words::{is_last_name, is_nameable, parameter_name};
use token::{TokenRef, Tokens};

const MOST_PARAMETERS: usize = 127;

// What parameters are called in the replacement list, from tokens with a comma behind each name.
#[derive(Clone, Copy)]
pub struct ParameterNames<'a>(pub(crate) Tokens<'a>);

impl<'a> Iterator for ParameterNames<'a> {
    type Item = &'a [u8];

    ghost next_gives = { YieldsFirstRef names_of };

    ghost remaining = { item_count names_of };

    fn next(&mut self) -> Option<&'a [u8]> {
        let token = self.0.next()?;
        self.0.next();
        Some(parameter_name(token))
    }
}

// Whether a parameter is called so.
pub(crate) fn has_parameter(tokens: Tokens<'_>, word: &[u8]) -> bool
    ensures { result ≡ member word.now (words (view_tokens tokens.entry)) }
{
    ParameterNames(tokens).any(|name| word == name)
}

// Whether the first two are a name and a comma, and no later parameter is called so.
fn is_fresh(name: TokenRef<'_>, comma: TokenRef<'_>, later: Tokens<'_>) -> bool
    ensures { result ≡ fresh_name (referred name.entry) (referred comma.entry) (view_tokens later.entry) }
{
    is_nameable(name) && comma.spells(b",") && !has_parameter(later, name.spelling)
}

// Whether the tokens are different names with commas between them.
fn are_names(mut tokens: Tokens<'_>) -> bool
    ensures { result ≡ is_some (names (view_tokens tokens.entry)) }
{
    while let Some(name) = tokens.next() {
        let Some(comma) = tokens.next() else {
            return is_last_name(name);
        };
        if !is_fresh(name, comma, tokens) {
            return false;
        }
    }
    false
}

// Whether the tokens may stand between the parentheses: there is a comma less than there are names.
#[tactic(auto, using(crate::proofs::Names::parameters_some, std::proofs::lemmas::Bool::Decides::nat_tests))]
pub(crate) fn are_parameters(tokens: Tokens<'_>) -> bool
    ensures { result ≡ is_some (parameters (view_tokens tokens.entry)) }
{
    tokens.len() == 0 || tokens.len() < 2 * MOST_PARAMETERS && are_names(tokens)
}
