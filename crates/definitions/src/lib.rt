// The definitions in force.
#![tactic(auto)]

use token::Tokens;

mod block;
mod compare;
mod definitions;
mod entry;
mod hints;
mod lay;
mod sizes;
mod store;

pub use definitions::Definitions;

// A definition in force. Its parameters are their names alone, the last `__VA_ARGS__` where it was `...`.
#[derive(Clone, Copy)]
pub struct Macro<'a> {
    pub name: &'a [u8],
    pub parameters: Option<Tokens<'a>>,
    pub list: Tokens<'a>,
}
