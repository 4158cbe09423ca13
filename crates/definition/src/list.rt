// Replacement lists.
ghost use Rattle.std.specs.Prelude.{◌≡◌, Some, None};
ghost use Rattle.token.specs.Tables.{referred};
ghost use Rattle.token.specs.Views.{view_tokens};
ghost use Rattle.definition.specs.Definitions.{first_joins, last_joins, hashed, plain, proper};
ghost use Rattle.definition.specs.Lists.{starts_in, hashed_first};
ghost use Rattle.definition.specs.Parameters.{words};

use crate::parameters::has_parameter;
use crate::words::{VARIABLE, is_hash, is_join};
use token::{TokenRef, Tokens};

fn first_joins(list: Tokens<'_>) -> bool
    ensures { result ≡ first_joins (view_tokens list.entry) }
{
    list.get(0).is_some_and(is_join)
}

fn last_joins(list: Tokens<'_>) -> bool
    ensures { result ≡ last_joins (view_tokens list.entry) }
{
    list.get(list.len().saturating_sub(1)).is_some_and(is_join)
}

fn starts_with_parameter(list: Tokens<'_>, inside: Tokens<'_>) -> bool
    ensures { result ≡ starts_in (words (view_tokens inside.entry)) (view_tokens list.entry) }
{
    matches!(list.get(0), Some(token) if has_parameter(inside, token.spelling))
}

// Whether the token is no #, or a parameter stands behind it.
fn is_hashed(token: TokenRef<'_>, rest: Tokens<'_>, inside: Tokens<'_>) -> bool
    ensures { result ≡ hashed_first (words (view_tokens inside.entry)) (referred token.entry) (view_tokens rest.entry) }
{
    !is_hash(token) || starts_with_parameter(rest, inside)
}

// Whether a parameter stands behind each #.
fn all_hashed(mut list: Tokens<'_>, inside: Tokens<'_>) -> bool
    ensures { result ≡ hashed (words (view_tokens inside.entry)) (view_tokens list.entry) }
{
    while let Some(token) = list.next() {
        if !is_hashed(token, list, inside) {
            return false;
        }
    }
    true
}

// Whether `__VA_ARGS__` is missing.
fn is_plain(mut list: Tokens<'_>) -> bool
    ensures { result ≡ plain (view_tokens list.entry) }
{
    list.all(|token| !token.spells(VARIABLE))
}

// Whether the list may be that of an object-like definition.
pub(crate) fn is_proper(list: Tokens<'_>) -> bool
    ensures { result ≡ proper None (view_tokens list.entry) }
{
    !first_joins(list) && !last_joins(list) && is_plain(list)
}

// Whether the list may stand behind the parameters.
pub(crate) fn is_proper_for(inside: Tokens<'_>, list: Tokens<'_>) -> bool
    ensures { result ≡ proper (Some (words (view_tokens inside.entry))) (view_tokens list.entry) }
{
    !first_joins(list)
        && !last_joins(list)
        && all_hashed(list, inside)
        && (has_parameter(inside, VARIABLE) || is_plain(list))
}
