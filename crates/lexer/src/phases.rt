// Phases 1 to 3, a line at a time.
ghost use Rattle.std.specs.Prelude.{◌≡◌};
ghost use Rattle.source.specs.declared.Ending.TheVariants.{Fails};
ghost use Rattle.source.specs.Lines.{line_tail};
ghost use Rattle.source.specs.Phases.{lines_left};
ghost use Rattle.token.specs.Tables.{table_tokens};
ghost use Rattle.lexer.specs.Phases.{cut_lines, tokens_head, tokens_first};
ghost use Rattle.lexer.specs.Worked.{Worked};

use crate::line_tokens::LineTokens;
use source::{Ending, Line, Reader, Source};
use text::Fault;

// Reads the next line's tokens into `tokens`, and answers the physical line of its newline; or answers how the tokens
// end, be it by a fault of the line, and leaves `tokens` empty.
pub fn next_tokens<B: Source>(
    reader: &mut Reader<B>,
    line: &mut Line,
    tokens: &mut LineTokens,
) -> Result<u32, Ending>
    ensures answer { result ≡ tokens_head (cut_lines (lines_left B.Source.rest reader.old)) }
    ensures tokens { table_tokens tokens.new.table ≡ tokens_first (cut_lines (lines_left B.Source.rest reader.old)) }
    ensures after { lines_left B.Source.rest reader.new ≡ line_tail (lines_left B.Source.rest reader.old) }
    ensures worked { Worked }
{
    let next = reader.next_line(line);
    match tokens.cut(line) {
        Ok(()) => next,
        Err(fault) => Err(ended_by(fault)),
    }
}

// A fault stands in for its whole line, and ends the tokens.
fn ended_by(fault: Fault) -> Ending
    ensures { result ≡ Fails fault }
{
    Ending::Fails(fault)
}
