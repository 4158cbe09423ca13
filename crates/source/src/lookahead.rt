// A source that takes back up to two bytes.
ghost use Rattle.std.specs.Prelude.{◌≡◌, if◌then◌else◌};
ghost use Rattle.source.specs.declared.lookahead.Held.TheVariants.{Nothing};
ghost use Rattle.source.specs.Lookahead.{popped, ahead_left};
ghost use Rattle.source.specs.Stream.{◌▸◌, head, tail, begins};

use crate::{Ending, Source};
use text::Placed;

// The bytes that were put back.
#[derive(Clone, Copy)]
pub(crate) enum Held {
    Nothing,
    One(Placed),
    Two(Placed, Placed),
}

#[derive(Drop)]
pub(crate) struct Lookahead<B> {
    pub(crate) below: B,
    pub(crate) held: Held,
}

impl<B: Source> Lookahead<B> {
    pub(crate) fn new(below: B) -> Lookahead<B>
        ensures { (result.below ≡ below) × (result.held ≡ Nothing) }
    {
        Lookahead {
            below,
            held: Held::Nothing,
        }
    }

    pub(crate) fn put_back(&mut self, first: Placed)
        requires { self.old.held ≡ Nothing }
        ensures { ahead_left B.Source.rest self.new ≡ first ▸ ahead_left B.Source.rest self.old }
    {
        self.held = Held::One(first);
    }

    pub(crate) fn put_back_two(&mut self, first: Placed, second: Placed)
        requires { self.old.held ≡ Nothing }
        ensures { ahead_left B.Source.rest self.new ≡ first ▸ second ▸ ahead_left B.Source.rest self.old }
    {
        self.held = Held::Two(first, second);
    }

    // The next byte, or the ending.
    pub(crate) fn next(&mut self) -> Result<Placed, Ending>
        ensures answer { result ≡ head (ahead_left B.Source.rest self.old) }
        ensures after { ahead_left B.Source.rest self.new ≡ tail (ahead_left B.Source.rest self.old) }
        ensures held { self.new.held ≡ popped self.old.held }
    {
        match self.held {
            Held::Nothing => self.below.take(),
            Held::One(first) => {
                self.held = Held::Nothing;
                Ok(first)
            }
            Held::Two(first, second) => {
                self.held = Held::One(second);
                Ok(first)
            }
        }
    }

    // Takes the next byte away where it is the one given, and answers whether it is.
    pub(crate) fn skip(&mut self, byte: u8) -> bool
        requires { popped self.old.held ≡ Nothing }
        ensures answer { result ≡ begins byte (ahead_left B.Source.rest self.old) }
        ensures after { ahead_left B.Source.rest self.new ≡ (if result then tail (ahead_left B.Source.rest self.old) else ahead_left B.Source.rest self.old) }
    {
        match self.next() {
            Ok(next) if next.byte == byte => true,
            Ok(other) => {
                self.put_back(other);
                false
            }
            Err(_) => false,
        }
    }
}
