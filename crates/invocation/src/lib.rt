// The run that is replaced, and the arguments behind a function-like name.
#![tactic(auto)]

mod arguments;
mod bracket;
mod calls;
mod input;
mod run;
mod table_run;
mod token_run;

pub use arguments::Arguments;
pub use bracket::{Bracket, GatherError};
pub use input::{drop_front, fetch_front, front, front_bracket, move_front};
pub use run::Run;
pub use table_run::TableRun;
pub use token_run::TokenRun;
