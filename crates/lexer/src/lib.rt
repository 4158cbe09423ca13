// The lexer: a logical line is cut into preprocessing tokens.
#![tactic(auto)]

mod cut;
mod line_tokens;
mod phases;
mod scan;

pub use cut::one_token;
pub use line_tokens::LineTokens;
pub use phases::next_tokens;
