// The operators # and ##, and what follows them: the result goes before W, the tokens that wait to be read again.
#![tactic(auto)]

use item::HideSet;

mod hides;
mod join;
mod literal;
mod place;
mod result;
mod spelling;

pub use literal::write_literal;
pub use place::place_result;
pub use spelling::Spelling;

// What a token is in a result before joining: a token with its hide set, the operator ##, or a placemarker, whose
// token says nothing.
#[derive(Clone, Copy, PartialEq, Debug)]
pub enum Role {
    Plain(HideSet),
    Join,
    Nothing,
}
