// The comment layer.
ghost use Rattle.std.specs.Prelude.{◌≡◌};
ghost use Rattle.source.specs.Stream.{head, tail};
ghost use Rattle.source.specs.Comments.{silent, hand, behind_slash, in_code, step as step_of, at_end, uncommented, uncommented_from};
ghost use Rattle.source.specs.Pieces.{PieceByPiece};

use crate::{Ending, Source};
use text::bytes::{is_mark, quote};
use text::{FaultKind, Placed};

// What is open.
#[derive(Clone, Copy)]
pub(crate) enum State {
    Code,
    // A literal, by its mark, and whether the next byte is taken along.
    Literal(u8, bool),
    // A slash on a line, which may begin a comment.
    SlashSeen(u32),
    // A block comment that begins on a line, and whether its last byte is a star.
    Block(u32, bool),
    LineComment,
}

// What a byte does: a byte handed on, another behind it, and what is open then.
#[derive(Clone, Copy)]
pub(crate) struct Step {
    out: Option<Placed>,
    behind: Option<Placed>,
    next: State,
}

impl Step {
    // No byte is handed on.
    fn silent(next: State) -> Step
        ensures { result ≡ silent next }
    {
        Step {
            out: None,
            behind: None,
            next,
        }
    }

    // One byte is handed on.
    fn hand(placed: Placed, next: State) -> Step
        ensures { result ≡ hand placed next }
    {
        Step {
            out: Some(placed),
            behind: None,
            next,
        }
    }

    // The same behind a slash that was seen and begins no comment.
    fn behind_slash(self, line: u32) -> Step
        ensures { result ≡ behind_slash line self }
    {
        Step {
            out: Some(Placed { byte: b'/', line }),
            behind: self.out,
            ..self
        }
    }
}

// Outside literals and comments.
fn in_code(placed: Placed) -> Step
    ensures { result ≡ in_code placed }
{
    match placed.byte {
        b'/' => Step::silent(State::SlashSeen(placed.line)),
        byte if is_mark(byte) => Step::hand(placed, State::Literal(byte, false)),
        _ => Step::hand(placed, State::Code),
    }
}

impl State {
    // What a byte does in the state.
    fn step(self, placed: Placed) -> Step
        ensures { result ≡ step_of self placed }
    {
        match (self, placed.byte) {
            (State::Code, _) => in_code(placed),
            (State::Literal(_, _), b'\n') => Step::hand(placed, State::Code),
            (State::Literal(mark, escaped), byte) => match quote(mark, escaped, byte) {
                None => Step::hand(placed, State::Code),
                Some(escaped) => Step::hand(placed, State::Literal(mark, escaped)),
            },
            (State::SlashSeen(line), b'*') => Step::silent(State::Block(line, false)),
            (State::SlashSeen(_), b'/') => Step::silent(State::LineComment),
            (State::SlashSeen(line), _) => in_code(placed).behind_slash(line),
            (State::Block(line, true), b'/') => Step::hand(
                Placed { byte: b' ', line },
                State::Code,
            ),
            (State::Block(line, _), byte) => Step::silent(State::Block(line, byte == b'*')),
            (State::LineComment, b'\n') => Step::hand(placed, State::Code),
            (State::LineComment, _) => Step::silent(State::LineComment),
        }
    }
}

// What is open, and a byte that is to be handed on first.
#[derive(Clone, Copy)]
pub(crate) struct Pending {
    state: State,
    queued: Option<Placed>,
}

#[derive(Drop)]
pub(crate) struct Comments<B> {
    pub(crate) below: B,
    pub(crate) pending: Pending,
}

impl<B: Source> Comments<B> {
    pub(crate) fn new(below: B) -> Comments<B>
        ensures stream { uncommented_from result.pending (B.Source.rest result.below) ≡ uncommented (B.Source.rest below) }
        ensures pieces { PieceByPiece }
    {
        let pending = Pending {
            state: State::Code,
            queued: None,
        };
        Comments { below, pending }
    }

    // The answer at an ending of the source below.
    fn end(&mut self, ending: Ending) -> Result<Placed, Ending>
        ensures answer { result ≡ head (at_end self.old.pending.state ending) }
        ensures after { at_end self.new.pending.state ending ≡ tail (at_end self.old.pending.state ending) }
        ensures same { (self.new.below ≡ self.old.below) × (self.new.pending.queued ≡ self.old.pending.queued) }
    {
        match (self.pending.state, ending) {
            (State::SlashSeen(line), _) => {
                self.pending.state = State::Code;
                Ok(Placed { byte: b'/', line })
            }
            (State::Block(line, _), Ending::Whole) => Err(FaultKind::OpenComment.at(line).into()),
            _ => Err(ending),
        }
    }
}

impl<B: Source> Source for Comments<B> {
    ghost rest = { λ s. uncommented_from s.pending (B.Source.rest s.below) };

    fn take(&mut self) -> Result<Placed, Ending> {
        if let Some(queued) = self.pending.queued.take() {
            return Ok(queued);
        }
        loop {
            let placed = match self.below.take() {
                Ok(placed) => placed,
                Err(ending) => return self.end(ending),
            };
            let Step { out, behind, next } = self.pending.state.step(placed);
            self.pending = Pending {
                state: next,
                queued: behind,
            };
            if let Some(out) = out {
                return Ok(out);
            }
        }
    }
}
