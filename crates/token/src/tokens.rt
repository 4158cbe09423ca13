// The tokens of a table, to be read, or taken from the front.
ghost use Rattle.std.specs.Prelude.{◌≡◌, length, take, drop};
ghost use Rattle.std.specs.Iterator.{YieldsFirstBy, item_count};
ghost use Rattle.std.specs.List.{slice_get};
ghost use Rattle.std.specs.Option.{option_map};
ghost use Rattle.token.specs.Limited.{record_token};
ghost use Rattle.token.specs.Tables.{referred};
ghost use Rattle.token.specs.Views.{view_tokens};

use crate::TokenRef;
use crate::record::Record;
use text::slice_of;

#[derive(Clone, Copy)]
pub struct Tokens<'a> {
    pub(crate) records: &'a [Record],
    pub(crate) text: &'a [u8],
}

impl<'a> Tokens<'a> {
    // How many tokens there are.
    pub fn len(&self) -> usize
        ensures { result ≡ length (view_tokens self.now) }
    {
        self.records.len()
    }

    // The token with the given index, or none past the last.
    pub fn get(&self, index: usize) -> Option<TokenRef<'a>>
        ensures { option_map referred result ≡ slice_get (view_tokens self.now) index }
    {
        let record = self.records.get(index)?;
        Some(token_of(self.text, *record))
    }

    // The tokens from a start on, as many as are wanted or there are.
    pub fn part(&self, start: usize, len: usize) -> Tokens<'a>
        ensures { view_tokens result ≡ take len (drop start (view_tokens self.now)) }
    {
        Tokens {
            records: slice_of(self.records, start, len),
            text: self.text,
        }
    }

    // The tokens behind the first ones.
    pub fn behind(&self, count: usize) -> Tokens<'a>
        ensures { view_tokens result ≡ drop count (view_tokens self.now) }
    {
        self.part(count, self.len())
    }
}

impl<'a> Iterator for Tokens<'a> {
    type Item = TokenRef<'a>;

    ghost next_gives = { YieldsFirstBy referred view_tokens };

    ghost remaining = { item_count view_tokens };

    fn next(&mut self) -> Option<TokenRef<'a>> {
        let (first, rest) = self.records.split_first()?;
        self.records = rest;
        Some(token_of(self.text, *first))
    }
}

// The token of a record, with its spelling in the text.
fn token_of(text: &[u8], record: Record) -> TokenRef<'_>
    ensures { referred result ≡ record_token text.now «record» }
{
    TokenRef {
        kind: record.kind,
        spelling: slice_of(text, record.spelling.start, record.spelling.len),
        line: record.line,
        marked: record.marked,
    }
}
