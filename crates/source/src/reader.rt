// The three layers over a bottom source, and cutting what they give into logical lines.
ghost use Rattle.std.specs.Prelude.{◌≡◌, [], OnOk};
ghost use Rattle.source.specs.declared.Ending.TheVariants.{Fails};
ghost use Rattle.source.specs.LineLaw.{LineByLine};
ghost use Rattle.source.specs.Lines.{held, line_head, line_bytes, line_tail, stop as only};
ghost use Rattle.source.specs.Texts.{file_left};
ghost use Rattle.source.specs.Phases.{logical_lines, lines_left, pending_lines, shelf_read};
ghost use Rattle.source.specs.Pieces.{PieceByPiece};

use crate::bottom::FileSource;
use crate::comment::Comments;
use crate::line::Line;
use crate::lookahead::{Held, Lookahead};
use crate::position::Position;
use crate::splice::Splices;
use crate::trigraph::Trigraphs;
use crate::{Ending, Source, comment};
use shelf::Shelf;
use text::{Fault, FaultKind};

// What the layers hold between two bytes.
#[derive(Clone, Copy)]
pub(crate) struct Layers {
    trigraphs: Held,
    splices: Held,
    unclosed: Option<u32>,
    comments: comment::Pending,
}

// A reading of a file that is put down between two lines.
#[derive(Clone, Copy)]
pub struct Pending {
    file: usize,
    position: Position,
    layers: Layers,
    stopped: Option<Fault>,
}

// A bottom source read through the layers, line by line.
#[derive(Drop)]
pub struct Reader<B> {
    layers: Comments<Splices<Trigraphs<B>>>,
    stopped: Option<Fault>,
}

impl<B: Source> Reader<B> {
    // The lines of the source.
    pub fn new(bottom: B) -> Reader<B>
        ensures lines { lines_left B.Source.rest result ≡ logical_lines (B.Source.rest bottom) }
        ensures pieces { PieceByPiece }
        ensures cut { LineByLine }
    {
        Reader {
            layers: Comments::new(Splices::new(Trigraphs::new(bottom))),
            stopped: None,
        }
    }

    // Reads the next logical line into `line`, and answers the physical line of its newline; or answers
    // how the lines end, and leaves `line` empty.
    pub fn next_line(&mut self, line: &mut Line) -> Result<u32, Ending>
        ensures answer { result ≡ line_head (lines_left B.Source.rest self.old) }
        ensures bytes { held line.new ≡ line_bytes (lines_left B.Source.rest self.old) }
        ensures after { lines_left B.Source.rest self.new ≡ line_tail (lines_left B.Source.rest self.old) }
    {
        line.clear();
        let newline = self.fill(line);
        if newline.is_err() {
            line.clear();
        }
        newline
    }

    // Reads the next logical line into a line that is empty, and leaves bytes in it where the lines end.
    fn fill(&mut self, line: &mut Line) -> Result<u32, Ending>
        requires { held line.old ≡ [] }
        ensures answer { result ≡ line_head (lines_left B.Source.rest self.old) }
        ensures bytes { OnOk result (held line.new ≡ line_bytes (lines_left B.Source.rest self.old)) }
        ensures after { lines_left B.Source.rest self.new ≡ line_tail (lines_left B.Source.rest self.old) }
    {
        if let Some(fault) = self.stopped {
            return Err(fault.into());
        }
        loop {
            let placed = self.layers.take()?;
            if placed.byte == b'\n' {
                return Ok(placed.line);
            }
            if line.push(placed).is_err() {
                return Err(self.stop(FaultKind::LongLine.at(line.lines()[0])));
            }
        }
    }

    // From here on there is only the fault.
    fn stop(&mut self, fault: Fault) -> Ending
        ensures answer { result ≡ Fails fault }
        ensures after { lines_left B.Source.rest self.new ≡ only (Fails fault) }
    {
        self.stopped = Some(fault);
        fault.into()
    }
}

impl<'a, S: Shelf> Reader<FileSource<'a, S>> {
    // Puts the reading of a file down.
    pub fn put_down(self) -> Pending
        ensures { pending_lines (S.Shelf.files (shelf_read self.entry)) result ≡ lines_left (file_left S.Shelf.files) self.entry }
    {
        let comments = &self.layers;
        let splices = &comments.below;
        let trigraphs = &splices.below.below;
        let bottom = &trigraphs.below.below;
        Pending {
            file: bottom.file,
            position: bottom.position,
            layers: Layers {
                trigraphs: trigraphs.below.held,
                splices: splices.below.held,
                unclosed: splices.unclosed,
                comments: comments.pending,
            },
            stopped: self.stopped,
        }
    }

    // Takes a reading up again that was put down, over the same shelf.
    pub fn resume(shelf: &'a S, pending: Pending) -> Reader<FileSource<'a, S>>
        ensures { lines_left (file_left S.Shelf.files) result ≡ pending_lines (S.Shelf.files shelf.now) pending }
    {
        let below = FileSource {
            shelf,
            file: pending.file,
            position: pending.position,
        };
        let held = pending.layers;
        let below = Trigraphs {
            below: Lookahead {
                below,
                held: held.trigraphs,
            },
        };
        let below = Splices {
            below: Lookahead {
                below,
                held: held.splices,
            },
            unclosed: held.unclosed,
        };
        let layers = Comments {
            below,
            pending: held.comments,
        };
        Reader {
            layers,
            stopped: pending.stopped,
        }
    }
}
