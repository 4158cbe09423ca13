// Tagged tokens, to be read, or taken from either end.
ghost use Rattle.std.specs.Prelude.{◌≡◌, length};
ghost use Rattle.token.specs.Views.{view_tokens};

use crate::TagRef;
use std::alloc::AllocError;
use text::slice_of;
use token::Tokens;

#[derive_where(Copy)]
pub struct TagView<'a, T> {
    pub(crate) tokens: Tokens<'a>,
    pub(crate) tags: &'a [T],
    ghost even: { length tags.now ≡ length (view_tokens tokens) },
}

// By hand: Rattle derives no `Clone` of a generic struct with a ghost field.
impl<'a, T> Clone for TagView<'a, T> {
    ghost is_clone = { λ x y. y ≡ x };

    ghost is_infallible = { λ _. Unit {0} };

    fn clone(&self) -> Result<TagView<'a, T>, AllocError> {
        Ok(*self)
    }
}

impl<'a, T: Copy> TagView<'a, T> {
    ghost use Rattle.std.specs.Prelude.{◌≡◌, length, take, drop};
    ghost use Rattle.std.specs.List.{slice_get};
    ghost use Rattle.std.specs.Option.{option_map};
    ghost use Rattle.item.specs.Tables.{shown, referred_to};

    pub fn len(&self) -> usize
        ensures { result ≡ length (shown self.now) }
    {
        self.tokens.len()
    }

    // The token with the given index, or none past the last.
    pub fn get(&self, index: usize) -> Option<TagRef<'a, T>>
        ensures { option_map referred_to result ≡ slice_get (shown self.now) index }
    {
        let token = self.tokens.get(index)?;
        let tag = *self.tags.get(index)?;
        Some(TagRef { token, tag })
    }

    // The tokens from a start on, as many as are wanted or there are.
    pub fn part(&self, start: usize, len: usize) -> TagView<'a, T>
        ensures { shown result ≡ take len (drop start (shown self.now)) }
    {
        TagView {
            tokens: self.tokens.part(start, len),
            tags: slice_of(self.tags, start, len),
        }
    }

    // The tokens behind the first ones.
    pub fn behind(&self, count: usize) -> TagView<'a, T>
        ensures { shown result ≡ drop count (shown self.now) }
    {
        self.part(count, self.len())
    }
}

impl<'a, T: Copy + Drop> Iterator for TagView<'a, T> {
    ghost use Rattle.std.specs.Iterator.{YieldsFirstBy, item_count};
    ghost use Rattle.item.specs.Tables.{shown, referred_to};

    type Item = TagRef<'a, T>;

    ghost next_gives = { YieldsFirstBy referred_to shown };

    ghost remaining = { item_count shown };

    fn next(&mut self) -> Option<TagRef<'a, T>> {
        let first = self.get(0)?;
        *self = self.behind(1);
        Some(first)
    }
}

impl<'a, T: Copy + Drop> DoubleEndedIterator for TagView<'a, T> {
    ghost use Rattle.std.specs.Iterator.{YieldsLastBy};
    ghost use Rattle.item.specs.Tables.{shown, referred_to};

    ghost next_back_gives = { YieldsLastBy referred_to shown };

    fn next_back(&mut self) -> Option<TagRef<'a, T>> {
        let before = self.len().checked_sub(1)?;
        let last = self.get(before)?;
        *self = self.part(0, before);
        Some(last)
    }
}
