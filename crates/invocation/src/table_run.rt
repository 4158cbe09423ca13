// An argument as a run: its tokens have hide sets, which those of a `TokenRun` have not yet.
ghost use Rattle.std.specs.List.{slice_get};
ghost use Rattle.source.specs.declared.Ending.TheVariants.{Whole};
ghost use Rattle.item.specs.Tables.{shown};

use crate::run::Run;
use item::{HideSet, TagRef, TagView};
use source::Ending;

#[derive(Clone, Copy)]
pub struct TableRun<'a> {
    pub items: TagView<'a, HideSet>,
}

impl<'a> Run for TableRun<'a> {
    ghost rest = { λ s. shown s.items };

    ghost hand = { λ s. slice_get (shown s.items) 0 };

    ghost end = { λ s. Whole };

    fn fill(&mut self) -> bool {
        self.items.len() > 0
    }

    fn first(&self) -> Option<TagRef<'_, HideSet>> {
        self.items.get(0)
    }

    fn advance(&mut self) {
        self.items = self.items.behind(1);
    }

    fn ending(&self) -> Ending {
        Ending::Whole
    }
}
