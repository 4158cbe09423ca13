// The blocks of tokens that hold definitions.
ghost use Rattle.std.specs.Prelude.{◌≡◌};
ghost use Rattle.std.specs.Str.{bytes_eq};
ghost use Rattle.token.specs.Views.{view_tokens};
ghost use Rattle.definitions.specs.Blocks.{first_spelling, block, macro_at};
ghost use Rattle.definitions.specs.Meaning.{stored_macro};

use crate::Macro;
use crate::entry::Entry;
use token::Tokens;

// The tokens of a definition.
pub(crate) fn block_of(tokens: Tokens<'_>, entry: Entry) -> Tokens<'_>
    ensures { view_tokens result ≡ block (view_tokens tokens.entry) entry }
{
    tokens.part(entry.block.start, entry.block.len)
}

fn first_spelling(tokens: Tokens<'_>) -> &[u8]
    ensures { result.now ≡ first_spelling (view_tokens tokens.entry) }
{
    match tokens.get(0) {
        Some(token) => token.spelling,
        None => &[],
    }
}

// The definition of an entry.
pub(crate) fn macro_at(tokens: Tokens<'_>, entry: Entry) -> Macro<'_>
    ensures { stored_macro result ≡ macro_at (view_tokens tokens.entry) entry }
{
    let block = block_of(tokens, entry);
    let rest = block.behind(1);
    match entry.parameters {
        Some(count) => Macro {
            name: first_spelling(block),
            parameters: Some(rest.part(0, count)),
            list: rest.behind(count),
        },
        None => Macro {
            name: first_spelling(block),
            parameters: None,
            list: rest,
        },
    }
}

// Whether the definition has the name.
pub(crate) fn is_named(tokens: Tokens<'_>, entry: Entry, name: &[u8]) -> bool
    ensures { result ≡ bytes_eq name.now (macro_at (view_tokens tokens.entry) entry).name }
{
    name == first_spelling(block_of(tokens, entry))
}
