// The trigraph layer.
ghost use Rattle.std.specs.Prelude.{◌≡◌, Ok};
ghost use Rattle.source.specs.declared.lookahead.Held.TheVariants.{Nothing};
ghost use Rattle.source.specs.Lookahead.{popped, ahead_left};
ghost use Rattle.source.specs.Stream.{◌▸◌, head, tail};
ghost use Rattle.source.specs.Trigraphs.{replacement, trigraph, trigraphs, trigraphs_from};

use crate::lookahead::Lookahead;
use crate::{Ending, Source};
use text::Placed;

#[derive(Drop)]
pub(crate) struct Trigraphs<B> {
    pub(crate) below: Lookahead<B>,
}

// What two question marks and the byte become.
fn replaced(byte: u8) -> Option<u8>
    ensures { result ≡ replacement byte }
{
    match byte {
        b'=' => Some(b'#'),
        b'(' => Some(b'['),
        b'/' => Some(b'\\'),
        b')' => Some(b']'),
        b'\'' => Some(b'^'),
        b'<' => Some(b'{'),
        b'!' => Some(b'|'),
        b'>' => Some(b'}'),
        b'-' => Some(b'~'),
        _ => None,
    }
}

// What the three pending bytes become, where they are a trigraph.
fn trigraph_in(first: u8, second: u8, third: u8) -> Option<u8>
    ensures { result ≡ trigraph first second third }
{
    match [first, second, third].as_slice() {
        [b'?', b'?', third] => replaced(*third),
        _ => None,
    }
}

impl<B: Source> Trigraphs<B> {
    pub(crate) fn new(below: B) -> Trigraphs<B>
        ensures { trigraphs_from result.below.held (B.Source.rest result.below.below) ≡ trigraphs (B.Source.rest below) }
    {
        Trigraphs {
            below: Lookahead::new(below),
        }
    }

    // What is handed on where `first` is taken: the byte for the trigraph that it begins, or itself.
    fn take_behind(&mut self, first: Placed) -> Placed
        requires { popped self.old.below.held ≡ Nothing }
        ensures answer { Ok result ≡ head (trigraphs (first ▸ ahead_left B.Source.rest self.old.below)) }
        ensures after { trigraphs (ahead_left B.Source.rest self.new.below) ≡ tail (trigraphs (first ▸ ahead_left B.Source.rest self.old.below)) }
    {
        let Ok(second) = self.below.next() else {
            return first;
        };
        let Ok(third) = self.below.next() else {
            self.below.put_back(second);
            return first;
        };
        match trigraph_in(first.byte, second.byte, third.byte) {
            Some(byte) => Placed { byte, ..first },
            None => {
                self.below.put_back_two(second, third);
                first
            }
        }
    }
}

impl<B: Source> Source for Trigraphs<B> {
    ghost rest = { λ s. trigraphs_from s.below.held (B.Source.rest s.below.below) };

    fn take(&mut self) -> Result<Placed, Ending> {
        let first = self.below.next()?;
        if first.byte == b'?' {
            Ok(self.take_behind(first))
        } else {
            Ok(first)
        }
    }
}
