// The listing that is printed.
use source::Ending;
use std::alloc::{AllocError, Global};
use text::Fault;
use token::TokenRef;

// The digits of a line number are made once for the tokens in a row that stand on it.
#[derive(Drop)]
pub(crate) struct Listing {
    bytes: Vec<u8>,
    line: Option<u32>,
    digits: String,
}

impl Listing {
    pub(crate) fn new(heap: Global) -> Listing {
        Listing {
            bytes: Vec::new(heap),
            line: None,
            digits: String::new(heap),
        }
    }

    pub(crate) fn add(&mut self, heap: Global, token: TokenRef<'_>) -> Result<(), AllocError> {
        let line = token.line;
        if self.line != Some(line) {
            self.line = Some(line);
            self.digits = format!(in heap; "{line}")?;
        }
        self.bytes.extend_from_slice(self.digits.as_bytes())?;
        self.bytes
            .extend_from_slice(&[b' ', b'0' + token.kind.number(), b' '])?;
        self.bytes.extend_from_slice(token.spelling)?;
        self.bytes.push(b'\n')?;
        Ok(())
    }

    // The last line.
    pub(crate) fn close(&mut self, heap: Global, ending: Ending) -> Result<(), AllocError> {
        match ending {
            Ending::Whole => self.add_bytes(b"// end\n"),
            Ending::Fails(Fault { kind, line }) => {
                let closing = format!(in heap; "// {kind} plan.c {line}\n")?;
                self.add_bytes(closing.as_bytes())
            }
        }
    }

    pub(crate) fn add_bytes(&mut self, bytes: &[u8]) -> Result<(), AllocError> {
        self.bytes.extend_from_slice(bytes)
    }

    pub(crate) fn bytes(&self) -> &[u8] {
        self.bytes.as_slice()
    }
}
