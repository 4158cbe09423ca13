// One logical line: its bytes, and beside each the physical line that it stands on. The bytes stand alone, since spellings
// are slices of them.
ghost use Rattle.std.specs.Prelude.{◌≡◌, ◌≤◌, map, vec_len, vec_capacity};
ghost use Rattle.text.specs.Placing.{placed, byte_of, line_of};

use std::alloc::{AllocError, Global};
use text::{Full, Placed};

// The bytes that a logical line may hold, its newline not counted.
pub const LONGEST_LINE: usize = 4095;

#[derive(Drop)]
pub struct Line {
    bytes: Vec<u8>,
    lines: Vec<u32>,
    ghost beside: { vec_len lines ≡ vec_len bytes },
    ghost bytes_side: { bytes.items ≡ map byte_of (placed bytes.items lines.items) },
    ghost lines_side: { lines.items ≡ map line_of (placed bytes.items lines.items) },
    ghost short: { vec_len bytes ≤ 4095 },
    ghost bytes_room: { 4095 ≤ vec_capacity bytes },
    ghost lines_room: { 4095 ≤ vec_capacity lines },
}

impl Line {
    ghost use Rattle.std.specs.Prelude.{◌≡◌, ◌≤◌, [], ◌∷◌, ◌++◌, map, length, IfOk, is_ok, if◌then◌else◌, nat_lt};
    ghost use Rattle.source.specs.Lines.{held};

    pub fn new(heap: Global) -> Result<Line, AllocError>
        ensures { IfOk result (λ l. held l ≡ []) }
    {
        Ok(Line {
            bytes: Vec::with_capacity(heap, LONGEST_LINE)?,
            lines: Vec::with_capacity(heap, LONGEST_LINE)?,
        })
    }

    // The bytes of the line.
    pub fn bytes(&self) -> &[u8]
        ensures value { result.now ≡ map byte_of (held self.now) }
        ensures bound { length result.now ≤ 4095 }
    {
        self.bytes.as_slice()
    }

    // The physical lines that the bytes stand on.
    pub fn lines(&self) -> &[u32]
        ensures value { result.now ≡ map line_of (held self.now) }
    {
        self.lines.as_slice()
    }

    pub(crate) fn clear(&mut self)
        ensures { held self.new ≡ [] }
    {
        self.bytes.clear();
        self.lines.clear();
    }

    // One more byte at the end; refused, with no change, where the line is full.
    pub(crate) fn push(&mut self, next: Placed) -> Result<(), Full>
        ensures room { is_ok result ≡ nat_lt (length (held self.old)) 4095 }
        ensures after { held self.new ≡ (if is_ok result then held self.old ++ next ∷ [] else held self.old) }
    {
        if self.bytes.len() >= LONGEST_LINE {
            return Err(Full);
        }
        self.bytes.push_reserved(next.byte);
        self.lines.push_reserved(next.line);
        Ok(())
    }
}
