// A table of tokens with something beside each. The tags stand apart, so that the tokens are a `TokenTable`.
ghost use Rattle.std.specs.Prelude.{◌≡◌, ◌≤◌, length, vec_len, vec_capacity};
ghost use Rattle.token.specs.Tables.{table_tokens};

use crate::TagRef;
use crate::view::TagView;
use std::alloc::{AllocError, Global};
use text::Full;
use token::TokenTable;

const MOST_TOKENS: usize = 1024;

const MOST_BYTES: usize = 16384;

// At most 1,024 tokens and 16,384 bytes of spellings.
#[derive(Drop)]
pub struct TagTable<T> {
    tokens: TokenTable<MOST_TOKENS, MOST_BYTES>,
    tags: Vec<T>,
    ghost even: { vec_len tags ≡ length (table_tokens tokens) },
    ghost room: { 1024 ≤ vec_capacity tags },
}

impl<T: Copy + Drop> TagTable<T> {
    ghost use Rattle.std.specs.Prelude.{◌≡◌, ◌-◌, [], ◌∷◌, ◌++◌, length, take, is_ok, IfOk, if◌then◌else◌};
    ghost use Rattle.std.specs.List.{slice_get};
    ghost use Rattle.std.specs.Option.{option_map};
    ghost use Rattle.item.specs.Tables.{held, shown, referred_to};
    ghost use Rattle.item.specs.Tagged.{fit};

    pub fn new(heap: Global) -> Result<TagTable<T>, AllocError>
        ensures { IfOk result (λ t. held t ≡ []) }
    {
        Ok(TagTable {
            tokens: TokenTable::new(heap)?,
            tags: Vec::with_capacity(heap, MOST_TOKENS)?,
        })
    }

    // Takes all tokens away.
    pub fn clear(&mut self)
        ensures { held self.new ≡ [] }
    {
        self.tokens.clear();
        self.tags.clear();
    }

    // One more token at the end; refused, with no change, where a limit does not allow it.
    pub fn push(&mut self, item: TagRef<'_, T>) -> Result<(), Full>
        ensures room { is_ok result ≡ fit (held self.old ++ referred_to item.entry ∷ []) }
        ensures tokens { held self.new ≡ (if is_ok result then held self.old ++ referred_to item.entry ∷ [] else held self.old) }
    {
        let pushed = self.tokens.push(item.token);
        if pushed.is_ok() {
            self.tags.push_reserved(item.tag);
        }
        pushed
    }

    // Takes the last token away, where there is one.
    pub fn pop(&mut self)
        ensures { held self.new ≡ take (length (held self.old) - 1) (held self.old) }
    {
        self.tokens.pop();
        let _last = self.tags.pop();
    }

    // The last token.
    pub fn last(&self) -> Option<TagRef<'_, T>>
        ensures { option_map referred_to result ≡ slice_get (held self.now) (length (held self.now) - 1) }
    {
        let items = self.view();
        items.get(items.len().saturating_sub(1))
    }

    pub fn view(&self) -> TagView<'_, T>
        ensures { shown result ≡ held self.now }
    {
        TagView {
            tokens: self.tokens.tokens(),
            tags: self.tags.as_slice(),
        }
    }
}
