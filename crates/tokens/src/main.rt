// Lists the preprocessing tokens of a plan, which it reads from standard input: a line for each,
// `LINE KIND SPELLING`, and then `// end` or `// fault N phase P plan.c LINE`.
#![tactic(auto)]

use lexer::{LineTokens, next_tokens};
use shelf::{Catalog, Entry, Extent, Shelf};
use source::{Ending, FileSource, Line, Reader, Source};
use std::alloc::{AllocError, Global};
use std::io;
use std::io::{Read, Write};
use text::Fault;
use token::Tokens;

const NAME: &[u8] = b"plan.c";

// The shelf of one file: the text is its name and then its content.
fn shelf_of(heap: Global, text: &[u8]) -> Result<Catalog<'_>, AllocError> {
    let name = Extent {
        start: 0,
        len: NAME.len(),
    };
    let content = Extent {
        start: NAME.len(),
        len: text.len().saturating_sub(NAME.len()),
    };
    Catalog::from_table(heap, text, &[Entry { name, content }])
}

// Adds a line for each token. The digits of a line number are made once for the tokens in a row that stand on it.
fn add_tokens(heap: Global, listing: &mut Vec<u8>, tokens: Tokens<'_>) -> Result<(), AllocError> {
    let mut last = None;
    let mut digits = String::new(heap);
    for token in tokens {
        let line = token.line;
        if last != Some(line) {
            last = Some(line);
            digits = format!(in heap; "{line}")?;
        }
        listing.extend_from_slice(digits.as_bytes())?;
        listing.extend_from_slice(&[b' ', b'0' + token.kind.number(), b' '])?;
        listing.extend_from_slice(token.spelling)?;
        listing.push(b'\n')?;
    }
    Ok(())
}

// The last line of the listing.
fn closing(heap: Global, ending: Ending) -> Result<String, AllocError> {
    match ending {
        Ending::Whole => String::from_str(heap, "// end\n"),
        Ending::Fails(Fault { kind, line }) => format!(in heap; "// {kind} plan.c {line}\n"),
    }
}

// The tokens of every line, up to the ending or the first fault.
fn list<B: Source + Drop>(heap: Global, mut reader: Reader<B>) -> Result<Vec<u8>, AllocError> {
    let mut listing = Vec::new(heap);
    let mut line = Line::new(heap)?;
    let mut tokens = LineTokens::new(heap)?;
    loop {
        if let Err(ending) = next_tokens(&mut reader, &mut line, &mut tokens) {
            listing.extend_from_slice(closing(heap, ending)?.as_bytes())?;
            return Ok(listing);
        }
        add_tokens(heap, &mut listing, tokens.tokens())?;
    }
}

fn main(rt: HostRuntime) -> io::Result<()> {
    let heap = rt.alloc();
    let mut text = Vec::from_slice(heap, NAME)?;
    rt.stdin().read_to_end(&mut text)?;
    let shelf = shelf_of(heap, &text)?;
    if let Some(file) = shelf.find(NAME) {
        let listing = list(heap, Reader::new(FileSource::new(&shelf, file)))?;
        rt.stdout().write_all(&listing)?;
    }
    Ok(())
}
