// The splice layer.
ghost use Rattle.std.specs.Prelude.{◌≡◌};
ghost use Rattle.source.specs.Splices.{opening, closed, spliced, spliced_from};
ghost use Rattle.source.specs.Stream.{ends, head, tail};

use crate::lookahead::Lookahead;
use crate::{Ending, Source};
use text::Placed;

// The line of the last byte handed on is kept where that left it open.
#[derive(Drop)]
pub(crate) struct Splices<B> {
    pub(crate) below: Lookahead<B>,
    pub(crate) unclosed: Option<u32>,
}

// The byte's line, where it leaves that open.
fn open_line(placed: Placed) -> Option<u32>
    ensures { result ≡ opening placed }
{
    (placed.byte != b'\n').then_some(placed.line)
}

impl<B: Source> Splices<B> {
    pub(crate) fn new(below: B) -> Splices<B>
        ensures { spliced_from result.below.held result.unclosed (B.Source.rest result.below.below) ≡ spliced (B.Source.rest below) }
    {
        Splices {
            below: Lookahead::new(below),
            unclosed: None,
        }
    }

    // The answer at an ending: first a newline, where the last line is open and the ending is whole.
    fn end(&mut self, ending: Ending) -> Result<Placed, Ending>
        ensures answer { result ≡ head (closed self.old.unclosed (ends ending)) }
        ensures after { closed self.new.unclosed (ends ending) ≡ tail (closed self.old.unclosed (ends ending)) }
        ensures below { self.new.below ≡ self.old.below }
    {
        match (ending, self.unclosed) {
            (Ending::Whole, Some(line)) => {
                self.unclosed = None;
                Ok(Placed { byte: b'\n', line })
            }
            _ => Err(ending),
        }
    }
}

impl<B: Source> Source for Splices<B> {
    ghost rest = { λ s. spliced_from s.below.held s.unclosed (B.Source.rest s.below.below) };

    fn take(&mut self) -> Result<Placed, Ending> {
        loop {
            let first = match self.below.next() {
                Ok(first) => first,
                Err(ending) => return self.end(ending),
            };
            if first.byte != b'\\' || !self.below.skip(b'\n') {
                self.unclosed = open_line(first);
                return Ok(first);
            }
        }
    }
}
