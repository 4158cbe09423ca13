// The tables that one level of replacement works in.
use invocation::Arguments;
use item::{HideSet, TagTable};
use operators::{Role, Spelling};
use std::alloc::{AllocError, Global};

// W, the tokens that wait to be read again; the arguments of a macro; its result before joining and behind it; an argument
// that is being expanded; and a spelling that is being made.
#[derive(Drop)]
pub(crate) struct Level {
    pub(crate) w: TagTable<HideSet>,
    pub(crate) arguments: Arguments,
    pub(crate) pieces: TagTable<Role>,
    pub(crate) joined: TagTable<HideSet>,
    pub(crate) expanded: TagTable<HideSet>,
    pub(crate) spelling: Spelling,
}

impl Level {
    ghost use Rattle.std.specs.Prelude.{◌≡◌, [], IfOk};
    ghost use Rattle.invocation.specs.Fronts.{waiting};

    pub(crate) fn new(heap: Global) -> Result<Level, AllocError>
        ensures { IfOk result (λ l. waiting l.w ≡ []) }
    {
        Ok(Level {
            w: TagTable::new(heap)?,
            arguments: Arguments::new(heap)?,
            pieces: TagTable::new(heap)?,
            joined: TagTable::new(heap)?,
            expanded: TagTable::new(heap)?,
            spelling: Spelling::new(heap)?,
        })
    }
}
