// A definition is laid into a table of tokens: its name, its parameters and its list.
ghost use Rattle.std.specs.Prelude.{◌≡◌, ◌++◌, length};
ghost use Rattle.std.specs.Option.{option_map};
ghost use Rattle.token.specs.Tables.{table_tokens, referred};
ghost use Rattle.token.specs.Views.{view_tokens};
ghost use Rattle.definition.specs.Meaning.{macro_of, names_of};
ghost use Rattle.definitions.specs.Layout.{name_token, parameter_tokens, laid, Holds};

use crate::sizes::Table;
use definition::{Definition, ParameterNames};
use token::{Kind, TokenRef, Tokens};

fn name_token(name: &[u8]) -> TokenRef<'_>
    ensures { referred result ≡ name_token name.now }
{
    TokenRef {
        kind: Kind::Identifier,
        spelling: name,
        line: 0,
        marked: false,
    }
}

// Adds the tokens, for which there is room.
pub(crate) fn lay_tokens(table: &mut Table, tokens: Tokens<'_>)
    requires { Holds table.old (view_tokens tokens) }
    ensures { table_tokens table.new ≡ table_tokens table.old ++ view_tokens tokens.entry }
{
    for token in tokens {
        table.push(token).unwrap();
    }
}

// Adds the names of the parameters, where there may be any, and counts them.
fn lay_parameters(table: &mut Table, names: Option<ParameterNames<'_>>) -> Option<usize>
    requires { Holds table.old (parameter_tokens (option_map names_of names)) }
    ensures count { result ≡ option_map length (option_map names_of names.entry) }
    ensures tokens { table_tokens table.new ≡ table_tokens table.old ++ parameter_tokens (option_map names_of names.entry) }
{
    let before = table.tokens().len();
    for name in names? {
        table.push(name_token(name)).unwrap();
    }
    Some(table.tokens().len() - before)
}

// Adds the definition, and counts its parameters, where it is function-like.
pub(crate) fn lay_definition(table: &mut Table, definition: Definition<'_>) -> Option<usize>
    requires { Holds table.old (laid (macro_of definition)) }
    ensures count { result ≡ option_map length (macro_of definition.entry).parameters }
    ensures tokens { table_tokens table.new ≡ table_tokens table.old ++ laid (macro_of definition.entry) }
{
    table.push(name_token(definition.name)).unwrap();
    let count = lay_parameters(table, definition.parameter_names());
    lay_tokens(table, definition.list);
    count
}
