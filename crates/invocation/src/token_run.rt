// Tokens as they were read, and how they end, as a run.
ghost use Rattle.std.specs.List.{slice_get};
ghost use Rattle.token.specs.Views.{view_tokens};
ghost use Rattle.invocation.specs.Runs.{unhidden};

use crate::run::Run;
use item::{HideSet, TagRef};
use source::Ending;
use token::Tokens;

#[derive(Clone, Copy)]
pub struct TokenRun<'a> {
    pub tokens: Tokens<'a>,
    pub ending: Ending,
}

impl<'a> Run for TokenRun<'a> {
    ghost rest = { λ s. unhidden (view_tokens s.tokens) };

    ghost hand = { λ s. slice_get (unhidden (view_tokens s.tokens)) 0 };

    ghost end = { λ s. s.ending };

    fn fill(&mut self) -> bool {
        self.tokens.len() > 0
    }

    fn first(&self) -> Option<TagRef<'_, HideSet>> {
        let token = self.tokens.get(0)?;
        Some(TagRef {
            token,
            tag: HideSet::empty(),
        })
    }

    fn advance(&mut self) {
        self.tokens = self.tokens.behind(1);
    }

    fn ending(&self) -> Ending {
        self.ending
    }
}
