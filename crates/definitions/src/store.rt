// Definitions in a table of tokens, so that nothing allocates after making.
ghost use Rattle.std.specs.Prelude.{◌≡◌, ◌≤◌, true, map, length, vec_len, vec_capacity};
ghost use Rattle.token.specs.Tables.{table_tokens};
ghost use Rattle.definitions.specs.Blocks.{macro_at, placed};
ghost use Rattle.definitions.specs.InForce.{list_token_count};

use crate::Macro;
use crate::block::{block_of, is_named, macro_at};
use crate::entry::Entry;
use crate::lay::{lay_definition, lay_tokens};
use crate::sizes::{MOST_NAMES, Table, fits_bytes, fits_counts};
use definition::Definition;
use std::alloc::{AllocError, Global};
use text::Extent;
use token::{TokenTable, Tokens};

#[derive(Drop)]
pub(crate) struct Store {
    pub(crate) tokens: Table,
    pub(crate) entries: Vec<Entry>,
    pub(crate) list_tokens: usize,
    ghost few: { vec_len entries ≤ 256 },
    ghost room: { 256 ≤ vec_capacity entries },
    ghost short: { list_tokens ≤ 4096 },
    ghost dense: { placed 0 entries.items (length (table_tokens tokens)) ≡ true },
    ghost listed: { list_token_count (map (macro_at (table_tokens tokens)) entries.items) ≡ list_tokens },
}

impl Store {
    ghost use Rattle.std.specs.Prelude.{◌≡◌, ℕ, ◌<◌, ◌≤◌, true, [], ◌∷◌, ◌++◌, map, length, IfOk, Some};
    ghost use Rattle.std.specs.List.{slice_get};
    ghost use Rattle.std.specs.Option.{option_map, unwrap_or};
    ghost use Rattle.definition.specs.Meaning.{macro_of};
    ghost use Rattle.token.specs.Views.{view_tokens};
    ghost use Rattle.definitions.specs.Hints.{is_named};
    ghost use Rattle.definitions.specs.InForce.{slot as slot_of, fit, without};
    ghost use Rattle.definitions.specs.Meaning.{stored_macro};
    ghost use Rattle.definitions.specs.Stores.{store_macros};

    // An empty store, with room for as many definitions as may ever be in force.
    pub(crate) fn new(heap: Global) -> Result<Store, AllocError>
        ensures { IfOk result (λ s. store_macros s ≡ []) }
    {
        Ok(Store {
            tokens: TokenTable::new(heap)?,
            entries: Vec::with_capacity(heap, MOST_NAMES)?,
            list_tokens: 0,
        })
    }

    // Takes all definitions away.
    pub(crate) fn clear(&mut self)
        ensures { store_macros self.new ≡ [] }
    {
        self.tokens.clear();
        self.entries.clear();
        self.list_tokens = 0;
    }

    // How many definitions there are.
    pub(crate) fn len(&self) -> usize
        ensures { result ≡ length (store_macros self.now) }
    {
        self.entries.len()
    }

    // Whether the definition in the slot has the name.
    pub(crate) fn is_named(&self, slot: usize, name: &[u8]) -> bool
        ensures { result ≡ is_named name.now (slice_get (store_macros self.now) slot) }
    {
        self.entries
            .get(slot)
            .is_some_and(|entry| is_named(self.tokens.tokens(), *entry, name))
    }

    // The slot of a name.
    pub(crate) fn find(&self, name: &[u8]) -> Option<usize>
        ensures slot { result ≡ slot_of name.now (store_macros self.now) }
        ensures within { (k : ℕ) → result ≡ Some k → k < 256 }
    {
        self.entries
            .iter()
            .position(|entry| is_named(self.tokens.tokens(), *entry, name))
    }

    // Whether one more definition stays within the limits.
    pub(crate) fn fits(&self, definition: Definition<'_>) -> bool
        ensures { result ≡ fit (store_macros self.now ++ macro_of definition.entry ∷ []) }
    {
        fits_counts(self.entries.len(), self.list_tokens, definition.list.len())
            && fits_bytes(self.tokens.bytes(), definition)
    }

    // One more definition, which fits.
    pub(crate) fn append(&mut self, definition: Definition<'_>)
        requires { fit (store_macros self.old ++ macro_of definition ∷ []) ≡ true }
        ensures { store_macros self.new ≡ store_macros self.old ++ macro_of definition.entry ∷ [] }
    {
        let start = self.tokens.tokens().len();
        let parameters = lay_definition(&mut self.tokens, definition);
        let len = self.tokens.tokens().len() - start;
        self.entries.push_reserved(Entry {
            block: Extent { start, len },
            parameters,
        });
        self.list_tokens += definition.list.len();
    }

    // One more definition, from other tokens, which fits.
    fn copy(&mut self, tokens: Tokens<'_>, entry: Entry)
        requires few { unwrap_or entry.parameters 0 ≤ 127 }
        requires fits { fit (store_macros self.old ++ macro_at (view_tokens tokens) entry ∷ []) ≡ true }
        ensures { store_macros self.new ≡ store_macros self.old ++ macro_at (view_tokens tokens.entry) entry ∷ [] }
    {
        let start = self.tokens.tokens().len();
        let block = block_of(tokens, entry);
        lay_tokens(&mut self.tokens, block);
        self.entries.push_reserved(Entry {
            block: Extent {
                start,
                len: block.len(),
            },
            ..entry
        });
        self.list_tokens += macro_at(tokens, entry).list.len();
    }

    // Holds the definitions of other names in another store, and nothing else.
    pub(crate) fn take_others(&mut self, from: &Store, name: &[u8])
        ensures { store_macros self.new ≡ without name.now (store_macros from.now) }
    {
        self.clear();
        let tokens = from.tokens.tokens();
        for entry in &from.entries {
            if !is_named(tokens, *entry, name) {
                self.copy(tokens, *entry);
            }
        }
    }

    // The definition in a slot, or none past the last.
    pub(crate) fn get(&self, slot: usize) -> Option<Macro<'_>>
        ensures { option_map stored_macro result ≡ slice_get (store_macros self.now) slot }
    {
        let entry = self.entries.get(slot)?;
        Some(macro_at(self.tokens.tokens(), *entry))
    }
}
