// What a token of a replacement list becomes.
ghost use Rattle.std.specs.Prelude.{◌≡◌, map, ◌==◌};
ghost use Rattle.std.specs.Option.{option_map};
ghost use Rattle.token.specs.Tables.{referred};
ghost use Rattle.token.specs.Views.{view_tokens};
ghost use Rattle.expansion.specs.Parts.{argument_at, substituted_part, part_of, width, is_join_part};

use definition::{is_hash, is_join};
use steps::index_of;
use token::{TokenRef, Tokens};

// An argument is told by its index.
#[derive(Clone, Copy, PartialEq, Debug)]
pub(crate) enum Part {
    Token,
    Join,
    Literal(usize),
    Raw(usize),
    Expanded(usize),
}

// Of a token of a definition's list and the one behind it, with so many arguments and with whether ## stands before it.
pub(crate) fn part_of(
    token: TokenRef<'_>,
    next: Option<TokenRef<'_>>,
    parameters: Option<Tokens<'_>>,
    arguments: usize,
    joins: bool,
) -> Part
    ensures { result ≡ part_of (option_map (λ v. map (λ t. t.spelling) (view_tokens v)) parameters.entry) arguments joins (referred token.entry) (option_map referred next.entry) }
{
    if is_join(token) {
        return Part::Join;
    }
    let Some(parameters) = parameters else {
        return Part::Token;
    };
    let Some(next) = next else {
        return substituted(argument_of(parameters, arguments, token), joins);
    };
    if is_hash(token) {
        // No argument has the index `arguments`: where no parameter follows, # makes a literal of no tokens.
        return Part::Literal(argument_of(parameters, arguments, next).unwrap_or(arguments));
    }
    substituted(
        argument_of(parameters, arguments, token),
        joins || is_join(next),
    )
}

// The index of the argument that a token stands for.
fn argument_of(parameters: Tokens<'_>, arguments: usize, token: TokenRef<'_>) -> Option<usize>
    ensures { result ≡ argument_at (map (λ t. t.spelling) (view_tokens parameters.entry)) arguments (referred token.entry) }
{
    index_of(parameters, token.spelling).filter(|index| *index < arguments)
}

// A token that is no operator: a parameter beside ## becomes its argument as it stands, any other its argument expanded.
fn substituted(argument: Option<usize>, beside: bool) -> Part
    ensures { result ≡ substituted_part argument beside }
{
    match (argument, beside) {
        (None, _) => Part::Token,
        (Some(index), true) => Part::Raw(index),
        (Some(index), false) => Part::Expanded(index),
    }
}

impl Part {
    // Whether it is the operator ##.
    pub(crate) fn is_join(self) -> bool
        ensures { result ≡ is_join_part self }
    {
        matches!(self, Part::Join)
    }

    // Whether it is # with the token behind it: two tokens of the list, where any other part is one.
    pub(crate) fn is_literal(self) -> bool
        ensures { result ≡ (width self == 2) }
    {
        matches!(self, Part::Literal(_))
    }
}
