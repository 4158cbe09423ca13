// A table whose limits are told when it is made: records, and one text that holds their spellings one behind the other, so
// that nothing allocates after making.
ghost use Rattle.std.specs.Prelude.{◌≡◌, ◌≤◌, true, min, take, vec_len, vec_capacity};
ghost use Rattle.token.specs.Packing.{packed, record_of};

use crate::TokenRef;
use crate::record::Record;
use crate::tokens::Tokens;
use std::alloc::{AllocError, Global};
use text::{Extent, Full};

// At most so many tokens and so many bytes of spellings as its maker said.
#[derive(Drop)]
pub struct LimitedTable {
    records: Vec<Record>,
    text: Vec<u8>,
    tokens_limit: usize,
    bytes_limit: usize,
    ghost few: { vec_len records ≤ tokens_limit },
    ghost short: { vec_len text ≤ bytes_limit },
    ghost records_room: { tokens_limit ≤ vec_capacity records },
    ghost text_room: { bytes_limit ≤ vec_capacity text },
    ghost dense: { packed 0 records.items (vec_len text) ≡ true },
}

impl LimitedTable {
    ghost use Rattle.std.specs.Prelude.{◌≡◌, ◌+◌, ◌-◌, false, ◌&&◌, [], ◌∷◌, ◌++◌, length, take, is_ok, IfOk, if◌then◌else◌, vec_len, nat_le, nat_lt};
    ghost use Rattle.token.specs.Limited.{limited_tokens, limit_of_tokens, limit_of_bytes};
    ghost use Rattle.token.specs.Tables.{referred};
    ghost use Rattle.token.specs.Views.{view_tokens, spelled, has_place};

    // An empty table with room for as many tokens and as many bytes of spellings as it may ever hold.
    pub fn new(
        heap: Global,
        tokens_limit: usize,
        bytes_limit: usize,
    ) -> Result<LimitedTable, AllocError>
        ensures { IfOk result (λ t. (limited_tokens t ≡ []) × (limit_of_tokens t ≡ tokens_limit) × (limit_of_bytes t ≡ bytes_limit)) }
    {
        Ok(LimitedTable {
            records: Vec::with_capacity(heap, tokens_limit)?,
            text: Vec::with_capacity(heap, bytes_limit)?,
            tokens_limit,
            bytes_limit,
        })
    }

    // Takes all tokens away.
    pub fn clear(&mut self)
        ensures tokens { limited_tokens self.new ≡ [] }
        ensures limits { (limit_of_tokens self.new ≡ limit_of_tokens self.old) × (limit_of_bytes self.new ≡ limit_of_bytes self.old) }
    {
        self.records.clear();
        self.text.clear();
    }

    // One more token at the end; refused, with no change, where a limit does not allow it.
    pub fn push(&mut self, token: TokenRef<'_>) -> Result<(), Full>
        ensures room { is_ok result ≡ has_place self.old (length token.entry.spelling.now) }
        ensures tokens { limited_tokens self.new ≡ (if is_ok result then limited_tokens self.old ++ referred token.entry ∷ [] else limited_tokens self.old) }
        ensures unchanged { is_ok result ≡ false → self.new ≡ self.old }
        ensures limits { (limit_of_tokens self.new ≡ limit_of_tokens self.old) × (limit_of_bytes self.new ≡ limit_of_bytes self.old) }
    {
        if !self.has_room(token.spelling.len()) {
            return Err(Full);
        }
        let record = record_at(self.text.len(), token);
        if self.text.extend_from_slice(token.spelling).is_err() {
            return Err(Full);
        }
        self.records.push_reserved(record);
        Ok(())
    }

    // Takes the last token away, where there is one.
    pub fn pop(&mut self)
        ensures tokens { limited_tokens self.new ≡ take (length (limited_tokens self.old) - 1) (limited_tokens self.old) }
        ensures limits { (limit_of_tokens self.new ≡ limit_of_tokens self.old) × (limit_of_bytes self.new ≡ limit_of_bytes self.old) }
    {
        if let Some(record) = self.records.pop() {
            cut_off(&mut self.text, record);
        }
    }

    // Whether one more token with a spelling of so many bytes stays within both limits.
    fn has_room(&self, len: usize) -> bool
        ensures { result ≡ (nat_lt (vec_len self.now.records) self.now.tokens_limit && nat_le (vec_len self.now.text + len) self.now.bytes_limit) }
    {
        self.records.len() < self.tokens_limit && len <= self.bytes_limit - self.text.len()
    }

    // How many bytes the spellings have together.
    pub fn bytes(&self) -> usize
        ensures { result ≡ spelled (limited_tokens self.now) }
    {
        self.text.len()
    }

    // The tokens that the table holds.
    pub fn tokens(&self) -> Tokens<'_>
        ensures { view_tokens result ≡ limited_tokens self.now }
    {
        Tokens {
            records: self.records.as_slice(),
            text: self.text.as_slice(),
        }
    }
}

// The record of a token whose spelling starts at the given place.
fn record_at(start: usize, token: TokenRef<'_>) -> Record
    ensures { result ≡ record_of start token.entry }
{
    Record {
        kind: token.kind,
        spelling: Extent {
            start,
            len: token.spelling.len(),
        },
        line: token.line,
        marked: token.marked,
    }
}

// Takes away the text from where the record's spelling starts.
fn cut_off(text: &mut Vec<u8>, record: Record)
    ensures items { text.new.items ≡ take «record».spelling.start text.old.items }
    ensures len { vec_len text.new ≡ min «record».spelling.start (vec_len text.old) }
    ensures capacity { vec_capacity text.new ≡ vec_capacity text.old }
{
    text.truncate(record.spelling.start);
}
