// Tokens on their way through replacement: hide sets, and tables of tokens with something beside each.
#![tactic(auto)]

use token::TokenRef;

mod hide_set;
mod table;
mod view;

pub use hide_set::HideSet;
pub use table::TagTable;
pub use view::TagView;

// A token and what stands beside it.
#[derive(Clone, Copy)]
pub struct TagRef<'a, T> {
    pub token: TokenRef<'a>,
    pub tag: T,
}

// A name that is replaced: the line that it stands on, its mark and its hide set.
#[derive(Clone, Copy, PartialEq, Debug)]
pub struct Name {
    pub line: u32,
    pub marked: bool,
    pub hides: HideSet,
}
