// Guesses where a name stands among the definitions.
ghost use Rattle.std.specs.Prelude.{◌≡◌, ℕ, ◌<◌, ◌%◌, ◌≢◌, true, Some};
ghost use Rattle.definitions.specs.Hashes.{mixed, cell_of};
ghost use Rattle.definitions.specs.Hints.{cell, hinted};
ghost use Rattle.definitions.specs.Stores.{store_names};

use crate::block::macro_at;
use crate::store::Store;

const CELLS: usize = 1024;

// Definitions have at most so many slots.
const MOST_SLOTS: usize = 256;

// The hash starts with this number, and is multiplied by the other with each byte.
const START: u32 = 2_166_136_261;

const FACTOR: u32 = 16_777_619;

// A cell for each value of the hash: the slot that a name with this hash was given last, in a byte, so that the cells are
// few bytes to clear.
#[derive(Drop)]
pub(crate) struct Hints {
    pub(crate) cells: [Option<u8>; CELLS],
}

fn mix(state: u32, byte: u8) -> u32
    ensures { result ≡ mixed state byte }
{
    (state ^ u32::from(byte)).wrapping_mul(FACTOR)
}

// The cell of a name.
#[tactic(auto, unfolding(crate::specs::Hashes::cell_of))]
fn hash(name: &[u8]) -> usize
    ensures cell { result ≡ cell_of name.now }
    ensures within { result < 1024 }
{
    name.iter().fold(START, |state, byte| mix(state, *byte)) as usize % CELLS
}

impl Hints {
    pub(crate) fn new() -> Hints {
        Hints {
            cells: [None; CELLS],
        }
    }

    pub(crate) fn clear(&mut self) {
        self.cells = [None; CELLS];
    }

    // What the cell of the name holds.
    pub(crate) fn get(&self, name: &[u8]) -> Option<usize>
        ensures { result ≡ cell self.now.cells (cell_of name.now) }
    {
        self.cells[hash(name)].map(usize::from)
    }

    // Notes the slot of the name.
    pub(crate) fn put(&mut self, name: &[u8], slot: usize)
        ensures here { cell self.new.cells (cell_of name.now) ≡ Some (slot % 256) }
        ensures others { (k : ℕ) → (k ≢ cell_of name.now) → cell self.new.cells k ≡ cell self.old.cells k }
    {
        self.cells[hash(name)] = Some((slot % MOST_SLOTS) as u8);
    }

    // Notes the slot of each name in the store, and no other.
    pub(crate) fn note_all(&mut self, store: &Store)
        ensures { hinted self.new.cells (store_names store.now) ≡ true }
    {
        self.clear();
        let tokens = store.tokens.tokens();
        for (slot, entry) in store.entries.iter().enumerate() {
            self.put(macro_at(tokens, *entry).name, slot);
        }
    }
}
