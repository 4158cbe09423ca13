// The tokens of one line, with room for as many as a line may have.
ghost use Rattle.std.specs.Prelude.{◌≡◌, ◌≤◌, [], length, IfOk, Ok, Err, MatchResult};
ghost use Rattle.source.specs.Lines.{held};
ghost use Rattle.text.specs.Placing.{placed};
ghost use Rattle.token.specs.Tables.{table_tokens};
ghost use Rattle.token.specs.Views.{view_tokens};
ghost use Rattle.lexer.specs.Cutting.{cut_line};
ghost use Rattle.lexer.specs.Grammar.{Lexical};

use crate::cut::measure;
use crate::scan::is_white;
use source::{LONGEST_LINE, Line};
use std::alloc::{AllocError, Global};
use text::Fault;
use token::{TokenRef, TokenTable, Tokens};

#[derive(Drop)]
pub struct LineTokens {
    table: TokenTable<LONGEST_LINE, LONGEST_LINE>,
}

impl LineTokens {
    pub fn new(heap: Global) -> Result<LineTokens, AllocError>
        ensures { IfOk result (λ l. table_tokens l.table ≡ []) }
    {
        Ok(LineTokens {
            table: TokenTable::new(heap)?,
        })
    }

    // Holds the tokens of the line and nothing else from now on; no tokens where the line has a fault.
    pub fn cut(&mut self, line: &Line) -> Result<(), Fault>
        ensures tokens { MatchResult result (λ _. cut_line (held line.now) ≡ Ok (table_tokens self.new.table)) (λ f. (cut_line (held line.now) ≡ Err f) × (table_tokens self.new.table ≡ [])) }
        ensures lexical { Lexical }
    {
        self.table.clear();
        if let Err(fault) = self.fill(line.bytes(), line.lines()) {
            self.table.clear();
            return Err(fault);
        }
        Ok(())
    }

    // The tokens of the line.
    pub fn tokens(&self) -> Tokens<'_>
        ensures { view_tokens result ≡ table_tokens self.now.table }
    {
        self.table.tokens()
    }

    // Adds the tokens of a line, given its bytes and the lines that they stand on, up to a fault. A step through
    // both is as long as the token found.
    fn fill(&mut self, bytes: &[u8], lines: &[u32]) -> Result<(), Fault>
        requires empty { table_tokens self.old.table ≡ [] }
        requires beside { length lines.now ≡ length bytes.now }
        requires short { length bytes.now ≤ 4095 }
        ensures { MatchResult result (λ _. cut_line (placed bytes.now lines.now) ≡ Ok (table_tokens self.new.table)) (λ f. cut_line (placed bytes.now lines.now) ≡ Err f) }
    {
        let mut at = 0;
        let mut marked = true;
        while at < bytes.len() {
            if is_white(bytes[at]) {
                at += 1;
                marked = true;
            } else {
                let (kind, len) = measure(&bytes[at..], lines[at])?;
                // A line's tokens always fit.
                let _fits = self.table.push(TokenRef {
                    kind,
                    spelling: &bytes[at..at + len],
                    line: lines[at],
                    marked,
                });
                at += len;
                marked = false;
            }
        }
        Ok(())
    }
}
