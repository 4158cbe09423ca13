// Macro definitions.
#![tactic(auto)]

ghost use Rattle.std.specs.Prelude.{◌≡◌};
ghost use Rattle.std.specs.Option.{option_map};
ghost use Rattle.definition.specs.Meaning.{macro_of, names_of};

use token::Tokens;

mod list;
mod parameters;
mod read;
mod words;

pub use parameters::ParameterNames;
use parameters::are_parameters;
pub use read::read_definition;
pub use words::{is_hash, is_join, is_reserved};

// A definition, by parts of the line that it was read from: the tokens between the parentheses,
// where it is function-like, and the replacement list.
#[derive(Clone, Copy)]
pub struct Definition<'a> {
    pub name: &'a [u8],
    pub parameters: Option<Tokens<'a>>,
    pub list: Tokens<'a>,
}

impl<'a> Definition<'a> {
    // The names of the parameters, where there are parentheses and the tokens may stand between them.
    #[tactic(auto, using(crate::proofs::Names::parameters_as))]
    pub fn parameter_names(self) -> Option<ParameterNames<'a>>
        ensures { option_map names_of result ≡ (macro_of self.entry).parameters }
    {
        let tokens = self.parameters?;
        are_parameters(tokens).then_some(ParameterNames(tokens))
    }
}
