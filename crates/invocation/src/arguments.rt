// The tokens between a call's parentheses, and the parts of them that are its arguments.
ghost use Rattle.std.specs.Prelude.{◌≤◌, vec_capacity};

use crate::bracket::{GatherError, depth_behind, ends_before};
use crate::calls::{most_commas, part_at_commas, same_count};
use crate::input::{front_bracket, move_front};
use crate::run::Run;
use item::{HideSet, TagTable, TagView};
use std::alloc::{AllocError, Global};
use text::{Extent, FaultKind};

const MOST_ARGUMENTS: usize = 1025;

const NO_TOKENS: Extent = Extent { start: 0, len: 0 };

// At most 1,024 tokens, so at most 1,025 arguments: extents of one table, so that nothing allocates after making.
#[derive(Drop)]
pub struct Arguments {
    pub(crate) inside: TagTable<HideSet>,
    pub(crate) extents: Vec<Extent>,
    ghost room: { 1025 ≤ vec_capacity extents },
}

impl Arguments {
    ghost use Rattle.std.specs.Prelude.{◌≡◌, ℕ, List, [], ◌++◌, length, is_ok, IfOk, IfErr, if◌then◌else◌, Some, None};
    ghost use Rattle.std.specs.List.{slice_get};
    ghost use Rattle.item.specs.Tables.{shown};
    ghost use Rattle.text.specs.declared.FaultKind.TheVariants.{ArgumentCount};
    ghost use Rattle.definition.specs.Definitions.{Macro, member, variable as variable_name};
    ghost use Rattle.replacement.specs.Meaning.{items_of};
    ghost use Rattle.replacement.specs.Replacing.{arguments as parted, operand_of};
    ghost use Rattle.invocation.specs.Calls.{inside as between, Gathering, arguments_in};
    ghost use Rattle.invocation.specs.Fronts.{waiting, Dropped};

    pub fn new(heap: Global) -> Result<Arguments, AllocError>
        ensures { IfOk result (λ a. between a ≡ []) }
    {
        Ok(Arguments {
            inside: TagTable::new(heap)?,
            extents: Vec::with_capacity(heap, MOST_ARGUMENTS)?,
        })
    }

    // The tokens behind a `(` are taken, up to the matching `)`. Answers what that `)` hides.
    pub fn gather<R: Run>(
        &mut self,
        w: &mut TagTable<HideSet>,
        run: &mut R,
    ) -> Result<HideSet, GatherError>
        ensures gathered { (ms : List Macro) → Gathering ms (waiting w.old ++ R.Run.rest run.old) result (between self.new) }
        ensures dropped { Dropped (length (between self.new)) (waiting w.old) (R.Run.rest run.old) (waiting w.new) (R.Run.rest run.new) }
        ensures same { R.Run.end run.new ≡ R.Run.end run.old }
    {
        self.inside.clear();
        let mut depth = 0;
        loop {
            let bracket = front_bracket(w, run);
            if let Some(ended) = ends_before(depth, bracket) {
                return ended;
            }
            move_front(w, run, &mut self.inside)?;
            depth = depth_behind(depth, bracket);
        }
    }

    // Parts the tokens in parentheses into arguments, as many as there are parameters; all that is left belongs to the
    // last one where that is variable. Refused where they are another number.
    pub fn part(&mut self, parameters: usize, variable: bool) -> Result<(), FaultKind>
        ensures parts { (ms : List Macro) (ps : List (List ℕ)) → length ps ≡ parameters → member variable_name ps ≡ variable → parted ps (items_of ms (between self.old)) ≡ (if is_ok result then Some (arguments_in ms self.new) else None) }
        ensures fault { IfErr result (λ f. f ≡ ArgumentCount) }
        ensures same { between self.new ≡ between self.old }
    {
        self.extents.clear();
        let inside = self.inside.view();
        if parameters == 0 {
            return same_count(inside.len(), 0);
        }
        let most = most_commas(parameters, variable, inside.len());
        part_at_commas(inside, most, &mut self.extents);
        same_count(self.extents.len(), parameters)
    }

    // How many arguments there are.
    pub fn len(&self) -> usize
        ensures { (ms : List Macro) → result ≡ length (arguments_in ms self.now) }
    {
        self.extents.len()
    }

    // An argument; no tokens where there is none of that index.
    pub fn get(&self, index: usize) -> TagView<'_, HideSet>
        ensures { (ms : List Macro) → items_of ms (shown result) ≡ operand_of (slice_get (arguments_in ms self.now) index) }
    {
        let extent = self.extents.get(index).copied().unwrap_or(NO_TOKENS);
        self.inside.view().part(extent.start, extent.len)
    }
}
