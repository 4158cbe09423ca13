// Preprocessing tokens: their kinds, and tables of them.
#![tactic(auto)]

ghost use Rattle.std.specs.Prelude.{◌≡◌};
ghost use Rattle.std.specs.Str.{bytes_eq};
ghost use Rattle.token.specs.Tokens.{kind_number};

mod limited;
mod record;
mod table;
mod tokens;

pub use limited::LimitedTable;
pub use table::TokenTable;
pub use tokens::Tokens;

// The six kinds of preprocessing tokens.
#[derive(Clone, Copy, PartialEq, Debug)]
pub enum Kind {
    Identifier = 1,
    Number = 2,
    Character = 3,
    String = 4,
    Punctuator = 5,
    Other = 6,
}

impl Kind {
    // The number of the kind.
    pub fn number(self) -> u8
        ensures { result ≡ kind_number self }
    {
        self as u8
    }
}

// A token, with its spelling where it lies.
#[derive(Clone, Copy)]
pub struct TokenRef<'a> {
    pub kind: Kind,
    pub spelling: &'a [u8],
    pub line: u32,
    pub marked: bool,
}

impl TokenRef<'_> {
    // Whether the token is spelled so.
    pub fn spells(self, word: &[u8]) -> bool
        ensures { result ≡ bytes_eq self.entry.spelling.now word.now }
    {
        self.spelling == word
    }
}
