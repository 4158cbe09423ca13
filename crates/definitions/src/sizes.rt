// The limits of the definitions in force, and how much a definition takes.
ghost use Rattle.std.specs.Prelude.{◌≡◌, ◌+◌, ◌&&◌, nat_le};
ghost use Rattle.std.specs.Option.{option_map};
ghost use Rattle.token.specs.Views.{view_tokens, spelled};
ghost use Rattle.definition.specs.Meaning.{macro_of, names_of};
ghost use Rattle.definitions.specs.InForce.{parameters_size, size as size_of};
ghost use Rattle.definitions.specs.Layout.{left as left_of};

use definition::{Definition, ParameterNames};
use token::{TokenTable, Tokens};

pub(crate) const MOST_NAMES: usize = 256;

const MOST_LIST_TOKENS: usize = 4096;

const MOST_BYTES: usize = 32_768;

// A name and at most 127 parameters for each definition, and the tokens of the lists.
const MOST_TOKENS: usize = 128 * MOST_NAMES + MOST_LIST_TOKENS;

// The tokens of all definitions.
pub(crate) type Table = TokenTable<MOST_TOKENS, MOST_BYTES>;

// What is left of a room behind the bytes of a list, or none where it is too small.
fn room_behind_list(room: usize, list: Tokens<'_>) -> Option<usize>
    ensures { result ≡ left_of room (spelled (view_tokens list.entry)) }
{
    let mut left = room;
    for token in list {
        left = left.checked_sub(token.spelling.len())?;
    }
    Some(left)
}

// The same behind the names of parameters, where there may be any.
fn room_behind_names(room: usize, names: Option<ParameterNames<'_>>) -> Option<usize>
    ensures { result ≡ left_of room (parameters_size (option_map names_of names.entry)) }
{
    let Some(names) = names else {
        return Some(room);
    };
    let mut left = room;
    for name in names {
        left = left.checked_sub(name.len())?;
    }
    Some(left)
}

// The same behind a definition.
fn room_behind(room: usize, definition: Definition<'_>) -> Option<usize>
    ensures { result ≡ left_of room (size_of (macro_of definition.entry)) }
{
    let room = room.checked_sub(definition.name.len())?;
    let room = room_behind_names(room, definition.parameter_names())?;
    room_behind_list(room, definition.list)
}

// Whether one more definition may stand beside so many, and so many more tokens in lists beside so many.
pub(crate) fn fits_counts(names: usize, tokens: usize, more: usize) -> bool
    ensures { result ≡ (nat_le (names + 1) 256 && nat_le (tokens + more) 4096) }
{
    names < MOST_NAMES && tokens <= MOST_LIST_TOKENS && more <= MOST_LIST_TOKENS - tokens
}

// Whether the definition may stand beside so many bytes.
pub(crate) fn fits_bytes(bytes: usize, definition: Definition<'_>) -> bool
    ensures { result ≡ nat_le (bytes + size_of (macro_of definition.entry)) 32768 }
{
    matches!(MOST_BYTES.checked_sub(bytes), Some(room) if room_behind(room, definition).is_some())
}
