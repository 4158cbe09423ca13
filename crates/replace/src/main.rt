// Expands a plan that it reads from standard input: a line for each token, `LINE KIND SPELLING`, and then `// end`,
// `// fault N phase P plan.c LINE` or, at a directive that is not handled yet, `// not handled`.
#![tactic(auto)]

use definition::read_definition;
use definitions::Definitions;
use directive::{Directive, directive_of};
use expansion::Expansion;
use invocation::TokenRun;
use lexer::{LineTokens, next_tokens};
use listing::Listing;
use shelf::{Catalog, Entry, Extent, Shelf};
use source::{Ending, FileSource, Line, Reader, Source};
use std::alloc::{AllocError, Global};
use std::io;
use std::io::{Read, Write};
use steps::Context;
use text::{Fault, FaultKind};
use token::{TokenTable, Tokens};

mod directive;
mod listing;

const NAME: &[u8] = b"plan.c";

// A text has at most so many bytes, and so at most so many tokens.
const LONGEST_TEXT: usize = 65_535;

// How a plan stops.
#[derive(Clone, Copy)]
enum Stop {
    At(Ending),
    NotHandled,
}

impl From<Fault> for Stop {
    fn from(fault: Fault) -> Stop {
        Stop::At(Ending::Fails(fault))
    }
}

// The definitions in force, the tokens of the text lines since the last directive, and what expands them.
#[derive(Drop)]
struct Plan {
    definitions: Definitions,
    run: TokenTable<LONGEST_TEXT, LONGEST_TEXT>,
    expansion: Expansion,
    listing: Listing,
}

impl Plan {
    fn new(heap: Global) -> Result<Plan, AllocError> {
        Ok(Plan {
            definitions: Definitions::new(heap)?,
            run: TokenTable::new(heap)?,
            expansion: Expansion::new(heap)?,
            listing: Listing::new(heap),
        })
    }

    // The next line: its tokens go to the run, or end it and are obeyed.
    fn take_line(&mut self, heap: Global, tokens: Tokens<'_>) -> Result<Option<Stop>, AllocError> {
        let Some(directive) = directive_of(tokens) else {
            for token in tokens {
                // A run's tokens always fit.
                let _fits = self.run.push(token);
            }
            return Ok(None);
        };
        if let Ending::Fails(fault) = self.end_run(heap, Ending::Whole)? {
            return Ok(Some(Stop::At(Ending::Fails(fault))));
        }
        Ok(self.obey(directive).err())
    }

    // Lists the expansion of the run, and answers how it ended.
    fn end_run(&mut self, heap: Global, ending: Ending) -> Result<Ending, AllocError> {
        let context = Context::new(&self.definitions, NAME);
        let mut run = TokenRun {
            tokens: self.run.tokens(),
            ending,
        };
        loop {
            if let Err(ending) = self.expansion.next(context, &mut run) {
                self.run.clear();
                return Ok(ending);
            }
            if let Some(token) = self.expansion.token() {
                self.listing.add(heap, token)?;
            }
        }
    }

    fn obey(&mut self, directive: Result<Directive<'_>, Fault>) -> Result<(), Stop> {
        match directive? {
            Directive::Dropped => {}
            Directive::Define(line, tokens) => self.define(line, tokens)?,
            Directive::Undefine(line, name) => self.undefine(line, name)?,
            Directive::NotHandled => return Err(Stop::NotHandled),
        }
        Ok(())
    }

    fn define(&mut self, line: u32, tokens: Tokens<'_>) -> Result<(), Fault> {
        let definition = read_definition(tokens).ok_or(FaultKind::BadDefinition.at(line))?;
        self.definitions
            .define(definition)
            .map_err(|kind| kind.at(line))
    }

    fn undefine(&mut self, line: u32, name: &[u8]) -> Result<(), Fault> {
        self.definitions
            .undefine(name)
            .map_err(|kind| kind.at(line))
    }
}

// The shelf of one file: the text is its name and then its content.
fn shelf_of(heap: Global, text: &[u8]) -> Result<Catalog<'_>, AllocError> {
    let name = Extent {
        start: 0,
        len: NAME.len(),
    };
    let content = Extent {
        start: NAME.len(),
        len: text.len().saturating_sub(NAME.len()),
    };
    Catalog::from_table(heap, text, &[Entry { name, content }])
}

// Lists the whole plan.
fn list<B: Source + Drop>(heap: Global, mut reader: Reader<B>) -> Result<Listing, AllocError> {
    let mut plan = Plan::new(heap)?;
    let mut line = Line::new(heap)?;
    let mut tokens = LineTokens::new(heap)?;
    let stop = loop {
        if let Err(ending) = next_tokens(&mut reader, &mut line, &mut tokens) {
            break Stop::At(plan.end_run(heap, ending)?);
        }
        if let Some(stop) = plan.take_line(heap, tokens.tokens())? {
            break stop;
        }
    };
    match stop {
        Stop::At(ending) => plan.listing.close(heap, ending)?,
        Stop::NotHandled => plan.listing.add_bytes(b"// not handled\n")?,
    }
    Ok(plan.listing)
}

fn main(rt: HostRuntime) -> io::Result<()> {
    let heap = rt.alloc();
    let mut text = Vec::from_slice(heap, NAME)?;
    rt.stdin().read_to_end(&mut text)?;
    let shelf = shelf_of(heap, &text)?;
    if let Some(file) = shelf.find(NAME) {
        let listing = list(heap, Reader::new(FileSource::new(&shelf, file)))?;
        rt.stdout().write_all(listing.bytes())?;
    }
    Ok(())
}
