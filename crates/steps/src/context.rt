// What replacement looks up and never changes.
ghost use Rattle.std.specs.Prelude.{◌≤◌, length};

use definitions::{Definitions, Macro};
use text::slice_of;

const LONGEST_NAME: usize = 63;

// The definitions in force, and the name that `__FILE__` stands for, of at most 63 bytes.
#[derive(Clone, Copy)]
pub struct Context<'a> {
    pub(crate) definitions: &'a Definitions,
    pub(crate) file: &'a [u8],
    ghost short: { length file.now ≤ 63 },
}

impl<'a> Context<'a> {
    ghost use Rattle.std.specs.Prelude.{◌≡◌, take};
    ghost use Rattle.std.specs.List.{slice_get};
    ghost use Rattle.std.specs.Option.{option_map};
    ghost use Rattle.definitions.specs.Meaning.{in_force, stored_macro};
    ghost use Rattle.steps.specs.Contexts.{macros, file_of};

    // A name of a file has at most 63 bytes; what is behind them is left out.
    pub fn new(definitions: &'a Definitions, file: &'a [u8]) -> Context<'a>
        ensures definitions { macros result ≡ in_force definitions.now }
        ensures file { file_of result ≡ take 63 file.now }
    {
        Context {
            definitions,
            file: slice_of(file, 0, LONGEST_NAME),
        }
    }

    // The definition in a slot.
    pub fn definition(&self, slot: usize) -> Option<Macro<'a>>
        ensures { option_map stored_macro result ≡ slice_get (macros self.now) slot }
    {
        self.definitions.get(slot)
    }
}
