// Reads texts at the edge of each fault of phases 1 to 3 and one past it, from a catalog of a table and
// from one of a pack, and prints how many tokens each gives and how it ends.
#![tactic(auto)]

use lexer::{LineTokens, next_tokens};
use shelf::{Catalog, Entry, Extent, Shelf};
use source::{Ending, FileSource, Line, Reader, Source};
use std::alloc::{AllocError, Global};
use std::io;
use text::Fault;

const NAME: &[u8] = b"plan.c";

// A text: a front, a byte so many times, and a back; and how many bytes more its length says that it has.
#[derive(Clone, Copy)]
struct Case<'a> {
    label: &'a str,
    front: &'a [u8],
    byte: u8,
    count: usize,
    back: &'a [u8],
    missing: usize,
}

// What reading gave: how many tokens, and the ending.
#[derive(Clone, Copy)]
struct Outcome {
    tokens: usize,
    ending: Ending,
}

// Reads to the end.
fn read_all<B: Source + Drop>(heap: Global, mut reader: Reader<B>) -> Result<Outcome, AllocError> {
    let mut line = Line::new(heap)?;
    let mut tokens = LineTokens::new(heap)?;
    let mut count = 0usize;
    loop {
        if let Err(ending) = next_tokens(&mut reader, &mut line, &mut tokens) {
            return Ok(Outcome {
                tokens: count,
                ending,
            });
        }
        count = count.saturating_add(tokens.tokens().len());
    }
}

// Finds the plan on a shelf and prints what reading it gives.
fn report<S: Shelf>(rt: &HostRuntime, label: &str, make: &str, shelf: &S) -> io::Result<()> {
    let Some(file) = shelf.find(NAME) else {
        return println!(rt; "{label}, {make}: absent");
    };
    let outcome = read_all(rt.alloc(), Reader::new(FileSource::new(shelf, file)))?;
    let tokens = outcome.tokens;
    match outcome.ending {
        Ending::Whole => println!(rt; "{label}, {make}: {tokens} tokens, end"),
        Ending::Fails(Fault { kind, line }) => {
            println!(rt; "{label}, {make}: {tokens} tokens, {kind} line {line}")
        }
    }
}

impl Case<'_> {
    // Adds the bytes of the text.
    fn add_to(&self, bytes: &mut Vec<u8>) -> Result<(), AllocError> {
        bytes.extend_from_slice(self.front)?;
        for _ in 0..self.count {
            bytes.push(self.byte)?;
        }
        bytes.extend_from_slice(self.back)
    }

    fn from_table(&self, rt: &HostRuntime) -> io::Result<()> {
        let mut bytes = Vec::from_slice(rt.alloc(), NAME)?;
        self.add_to(&mut bytes)?;
        let len = bytes
            .len()
            .saturating_sub(NAME.len())
            .saturating_add(self.missing);
        let name = Extent {
            start: 0,
            len: NAME.len(),
        };
        let content = Extent {
            start: NAME.len(),
            len,
        };
        let shelf = Catalog::from_table(rt.alloc(), &bytes, &[Entry { name, content }])?;
        report(rt, self.label, "table", &shelf)
    }

    // A pack has no more than 65,535 bytes of content.
    fn from_pack(&self, rt: &HostRuntime) -> io::Result<()> {
        let mut content = Vec::new(rt.alloc());
        self.add_to(&mut content)?;
        let Ok(len) = u16::try_from(content.len().saturating_add(self.missing)) else {
            return Ok(());
        };
        let mut pack = Vec::from_slice(rt.alloc(), b"\x06plan.c")?;
        pack.extend_from_slice(&len.to_be_bytes())?;
        pack.extend_from_slice(&content)?;
        let shelf = Catalog::from_pack(rt.alloc(), &pack)?;
        report(rt, self.label, "pack", &shelf)
    }

    fn run(&self, rt: &HostRuntime) -> io::Result<()> {
        self.from_table(rt)?;
        self.from_pack(rt)
    }
}

// A text with a run of one byte in it.
fn long<'a>(label: &'a str, front: &'a [u8], byte: u8, count: usize, back: &'a [u8]) -> Case<'a> {
    Case {
        label,
        front,
        byte,
        count,
        back,
        missing: 0,
    }
}

// A text as it stands.
fn plain<'a>(label: &'a str, text: &'a [u8]) -> Case<'a> {
    long(label, text, 0, 0, b"")
}

fn endings(rt: &HostRuntime) -> io::Result<()> {
    let broken = Case {
        label: "one byte is missing",
        front: b"a;\nb",
        byte: 0,
        count: 0,
        back: b"",
        missing: 1,
    };
    plain("no byte is missing", b"a;\nb").run(rt)?;
    broken.run(rt)
}

fn bytes(rt: &HostRuntime) -> io::Result<()> {
    plain("byte 9", b"a\n\x09;").run(rt)?;
    plain("byte 8", b"a\n\x08;").run(rt)?;
    plain("byte 12", b"a\n\x0c;").run(rt)?;
    plain("byte 13", b"a\n\x0d;").run(rt)?;
    plain("byte 32", b"a\n\x20;").run(rt)?;
    plain("byte 31", b"a\n\x1f;").run(rt)?;
    plain("byte 126", b"a\n\x7e;").run(rt)?;
    plain("byte 127", b"a\n\x7f;").run(rt)
}

fn long_texts(rt: &HostRuntime) -> io::Result<()> {
    long("65,535 bytes", b"", b'\n', 65534, b";").run(rt)?;
    long("65,536 bytes", b"", b'\n', 65535, b";").run(rt)?;
    long("a bad 65,536th byte", b"", b'\n', 65535, b"\x00").run(rt)
}

fn comments(rt: &HostRuntime) -> io::Result<()> {
    plain("a closed comment", b"a\nb /* \n **/ c").run(rt)?;
    plain("an open comment", b"a\nb /* \n ** / c").run(rt)?;
    plain("a comment that is slash, star and slash", b"a /*/").run(rt)
}

fn literals(rt: &HostRuntime) -> io::Result<()> {
    plain("a closed literal", b"a\n'b' L\"\" ;").run(rt)?;
    plain("an open literal", b"a\nc 'b\\' L\"\" ;").run(rt)?;
    plain("a character constant of one byte", b"a\n'b';").run(rt)?;
    plain("a character constant of none", b"a\n'';").run(rt)?;
    long("an open literal that is long", b"\"", b'b', 1023, b"\n").run(rt)
}

fn lines(rt: &HostRuntime) -> io::Result<()> {
    long("4,095 bytes in a line", b"a\n\\\n", b';', 4095, b"\n").run(rt)?;
    long("4,096 bytes in a line", b"a\n\\\n", b';', 4096, b"\n").run(rt)?;
    long("4,096 bytes in a token", b"a\n\\\n", b'b', 4096, b"\n").run(rt)
}

fn tokens(rt: &HostRuntime) -> io::Result<()> {
    long("1,023 bytes in a token", b"a\nb ", b'c', 1023, b";\n").run(rt)?;
    long("1,024 bytes in a token", b"a\nb ", b'c', 1024, b";\n").run(rt)
}

fn main(rt: HostRuntime) -> io::Result<()> {
    endings(&rt)?;
    bytes(&rt)?;
    long_texts(&rt)?;
    comments(&rt)?;
    literals(&rt)?;
    lines(&rt)?;
    tokens(&rt)
}
