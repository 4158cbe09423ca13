// Phases 1 to 3 up to logical lines: a text is read byte by byte through trigraphs, splices and
// comments, and what that gives is cut into lines.
#![tactic(auto)]

ghost use Rattle.std.specs.Prelude.{◌≡◌};
ghost use Rattle.source.specs.declared.Ending.TheVariants.{Fails};
ghost use Rattle.source.specs.Stream.{Stream, head, tail};

mod bottom;
mod comment;
mod line;
mod lookahead;
mod position;
mod reader;
mod splice;
mod trigraph;

pub use bottom::{FileSource, TextSource};
pub use line::{LONGEST_LINE, Line};
pub use reader::{Pending, Reader};
use text::{Fault, Placed};

// How a source ends: the error of each reading. That of a whole text is a case with a name, since `None` would say nothing.
#[derive(Clone, Copy, PartialEq, Debug)]
pub enum Ending {
    Whole,
    Fails(Fault),
}

impl From<Fault> for Ending {
    ghost from_gives = { λ f e. e ≡ Fails f };

    fn from(fault: Fault) -> Ending {
        Ending::Fails(fault)
    }
}

// Anything that gives placed bytes and then ends. Its meaning is the stream of what it still has to give.
pub trait Source {
    ghost rest: { Self → Stream };

    // Removes and answers the first byte, or at the end the ending every time.
    fn take(&mut self) -> Result<Placed, Ending>
        ensures answer { result ≡ head (rest self.old) }
        ensures after { rest self.new ≡ tail (rest self.old) };
}
