// A buffer in which a spelling is made.
ghost use Rattle.std.specs.Prelude.{◌≤◌, vec_len, vec_capacity};

use std::alloc::{AllocError, Global};
use text::Full;

const LONGEST_SPELLING: usize = 1023;

// At most 1,023 bytes.
#[derive(Drop)]
pub struct Spelling {
    bytes: Vec<u8>,
    ghost short: { vec_len bytes ≤ 1023 },
    ghost room: { 1023 ≤ vec_capacity bytes },
}

impl Spelling {
    ghost use Rattle.std.specs.Prelude.{◌≡◌, ◌+◌, [], ◌++◌, length, is_ok, IfOk, if◌then◌else◌, vec_len, nat_le};
    ghost use Rattle.operators.specs.Spellings.{spelt};

    pub fn new(heap: Global) -> Result<Spelling, AllocError>
        ensures { IfOk result (λ s. spelt s ≡ []) }
    {
        Ok(Spelling {
            bytes: Vec::with_capacity(heap, LONGEST_SPELLING)?,
        })
    }

    pub fn clear(&mut self)
        ensures { spelt self.new ≡ [] }
    {
        self.bytes.clear();
    }

    // More bytes at the end; refused, with no change, where they are too many.
    pub fn add(&mut self, more: &[u8]) -> Result<(), Full>
        ensures room { is_ok result ≡ nat_le (length (spelt self.old ++ more.now)) 1023 }
        ensures added { spelt self.new ≡ (if is_ok result then spelt self.old ++ more.now else spelt self.old) }
    {
        if !self.has_room(more.len()) {
            return Err(Full);
        }
        self.bytes.extend_from_slice(more).map_err(|_| Full)
    }

    // Whether so many more bytes are not too many.
    fn has_room(&self, len: usize) -> bool
        ensures { result ≡ nat_le (vec_len self.now.bytes + len) 1023 }
    {
        len <= LONGEST_SPELLING - self.bytes.len()
    }

    pub fn bytes(&self) -> &[u8]
        ensures { result.now ≡ spelt self.now }
    {
        self.bytes.as_slice()
    }
}
