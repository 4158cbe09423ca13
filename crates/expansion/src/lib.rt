// Macro replacement: a run of tokens is expanded token by token.
#![tactic(auto)]

mod build;
mod expansion;
mod level;
mod part;
mod pieces;

pub use expansion::Expansion;
