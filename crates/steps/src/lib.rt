// A step of macro replacement, up to the point where a result has to be made.
#![tactic(auto)]

mod built_in;
mod class;
mod context;
mod hand;
mod prepared;
mod words;

pub use class::BuiltIn;
pub use context::Context;
pub use hand::hand_on;
pub use prepared::{Call, Handed, Prepared, prepare};
pub use words::index_of;
