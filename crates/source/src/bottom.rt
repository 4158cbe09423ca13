// The sources at the bottom: a file of a shelf, and a text in memory.
ghost use Rattle.std.specs.Prelude.{◌≡◌, ◌≤◌};
ghost use Rattle.source.specs.Texts.{closing, line_behind, placing, Reads, memory_text, text_from, file_left, file_text};
ghost use Rattle.shelf.specs.declared.Ending.TheVariants.{Whole as WholeFile};

use crate::position::Position;
use crate::{Ending, Source};
use shelf::Shelf;
use text::bytes::is_admitted;
use text::{FaultKind, Placed};

// The bytes that a text may have.
pub const LONGEST_TEXT: usize = 65535;

// What the ending of a file is on a line.
fn closing(ending: shelf::Ending, line: u32) -> Ending
    ensures { result ≡ closing ending line }
{
    match ending {
        shelf::Ending::Whole => Ending::Whole,
        shelf::Ending::Broken => FaultKind::BrokenFile.at(line).into(),
    }
}

// The line behind a byte.
fn line_behind(byte: u8, line: u32) -> u32
    requires { line ≤ 65535 }
    ensures { result ≡ line_behind byte line }
{
    if byte == b'\n' { line + 1 } else { line }
}

impl Position {
    fn start() -> Position
        ensures { (result.offset ≡ 0) × (result.line ≡ 1) }
    {
        Position { offset: 0, line: 1 }
    }

    // A byte that stands at this position, where a text may have it there.
    fn place(self, byte: u8) -> Result<Placed, Ending>
        ensures { result ≡ placing self.offset self.line byte }
    {
        let Position { offset, line } = self;
        if offset >= LONGEST_TEXT {
            Err(FaultKind::LongFile.at(line).into())
        } else if !is_admitted(byte) {
            Err(FaultKind::BadByte.at(line).into())
        } else {
            Ok(Placed { byte, line })
        }
    }

    // The answer where a text has the reading at this position; behind a byte the position moves on.
    fn take(&mut self, reading: Result<u8, shelf::Ending>) -> Result<Placed, Ending>
        ensures { Reads self.old reading result self.new }
    {
        let byte = match reading {
            Ok(byte) => byte,
            Err(ending) => return Err(closing(ending, self.line)),
        };
        let placed = self.place(byte)?;
        *self = Position {
            offset: self.offset + 1,
            line: line_behind(byte, self.line),
        };
        Ok(placed)
    }
}

// A file of a shelf. A number outside the shelf's list reads as an empty file.
#[derive(Drop)]
pub struct FileSource<'a, S> {
    pub(crate) shelf: &'a S,
    pub(crate) file: usize,
    pub(crate) position: Position,
}

impl<'a, S: Shelf> FileSource<'a, S> {
    // The file from its first byte on.
    pub fn new(shelf: &'a S, file: usize) -> FileSource<'a, S>
        ensures { file_left S.Shelf.files result ≡ file_text (S.Shelf.files shelf.now) file }
    {
        FileSource {
            shelf,
            file,
            position: Position::start(),
        }
    }
}

impl<S: Shelf> Source for FileSource<'_, S> {
    ghost rest = { file_left S.Shelf.files };

    fn take(&mut self) -> Result<Placed, Ending> {
        match self.shelf.read(self.file, self.position.offset) {
            Some(reading) => self.position.take(reading),
            None => Err(Ending::Whole),
        }
    }
}

// A text in memory, with a position as a file has.
#[derive(Drop)]
pub struct TextSource<'a> {
    text: &'a [u8],
    position: Position,
}

impl<'a> TextSource<'a> {
    // The text from its first byte on.
    pub fn new(text: &'a [u8]) -> TextSource<'a>
        ensures { text_from result.position result.text.now WholeFile ≡ memory_text text.now }
    {
        TextSource {
            text,
            position: Position::start(),
        }
    }
}

impl Source for TextSource<'_> {
    ghost rest = { λ s. text_from s.position s.text.now WholeFile };

    fn take(&mut self) -> Result<Placed, Ending> {
        let byte = self.text.get(self.position.offset).copied();
        self.position.take(byte.ok_or(shelf::Ending::Whole))
    }
}
