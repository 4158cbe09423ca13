// Tokens in a table with its limits in the type.
ghost use Rattle.std.specs.Prelude.{◌≡◌};
ghost use Rattle.token.specs.Limited.{limit_of_tokens, limit_of_bytes};

use crate::TokenRef;
use crate::limited::LimitedTable;
use crate::tokens::Tokens;
use std::alloc::{AllocError, Global};
use text::Full;

// At most so many tokens and so many bytes of spellings.
#[derive(Drop)]
pub struct TokenTable<const TOKENS: usize, const BYTES: usize> {
    table: LimitedTable,
    ghost tokens_limit: { limit_of_tokens table ≡ TOKENS },
    ghost bytes_limit: { limit_of_bytes table ≡ BYTES },
}

impl<const TOKENS: usize, const BYTES: usize> TokenTable<TOKENS, BYTES> {
    ghost use Rattle.std.specs.Prelude.{◌≡◌, ◌-◌, false, [], ◌∷◌, ◌++◌, length, take, is_ok, IfOk, if◌then◌else◌};
    ghost use Rattle.token.specs.Tables.{table_tokens, referred};
    ghost use Rattle.token.specs.Views.{view_tokens, spelled, has_room};

    // An empty table with room for as many tokens and as many bytes of spellings as it may ever hold.
    pub fn new(heap: Global) -> Result<TokenTable<TOKENS, BYTES>, AllocError>
        ensures { IfOk result (λ t. table_tokens t ≡ []) }
    {
        Ok(TokenTable {
            table: LimitedTable::new(heap, TOKENS, BYTES)?,
        })
    }

    // Takes all tokens away.
    pub fn clear(&mut self)
        ensures { table_tokens self.new ≡ [] }
    {
        self.table.clear();
    }

    // One more token at the end; refused, with no change, where a limit does not allow it.
    pub fn push(&mut self, token: TokenRef<'_>) -> Result<(), Full>
        ensures room { is_ok result ≡ has_room self.old (length token.entry.spelling.now) }
        ensures tokens { table_tokens self.new ≡ (if is_ok result then table_tokens self.old ++ referred token.entry ∷ [] else table_tokens self.old) }
        ensures unchanged { is_ok result ≡ false → self.new ≡ self.old }
    {
        self.table.push(token)
    }

    // Takes the last token away, where there is one.
    pub fn pop(&mut self)
        ensures { table_tokens self.new ≡ take (length (table_tokens self.old) - 1) (table_tokens self.old) }
    {
        self.table.pop();
    }

    // How many bytes the spellings have together.
    pub fn bytes(&self) -> usize
        ensures { result ≡ spelled (table_tokens self.now) }
    {
        self.table.bytes()
    }

    // The tokens that the table holds.
    pub fn tokens(&self) -> Tokens<'_>
        ensures { view_tokens result ≡ table_tokens self.now }
    {
        self.table.tokens()
    }
}
