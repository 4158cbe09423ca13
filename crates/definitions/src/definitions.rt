// The definitions in force, a store to copy them to, and guesses where a name stands.
ghost use Rattle.std.specs.Prelude.{◌≡◌, true};
ghost use Rattle.definitions.specs.Hints.{hinted, distinct};
ghost use Rattle.definitions.specs.Stores.{store_names};

use crate::Macro;
use crate::compare::same_macro;
use crate::hints::Hints;
use crate::store::Store;
use definition::{Definition, is_reserved};
use std::alloc::{AllocError, Global};
use text::FaultKind;

#[derive(Drop)]
pub struct Definitions {
    pub(crate) force: Store,
    pub(crate) spare: Store,
    pub(crate) hints: Hints,
    ghost unlike: { distinct (store_names force) ≡ true },
    ghost noted: { hinted hints.cells (store_names force) ≡ true },
}

impl Definitions {
    ghost use Rattle.std.specs.Prelude.{◌≡◌, ℕ, ◌<◌, not, [], is_ok, IfOk, IfErr, if◌then◌else◌, Some, None, Ok, Err, MatchResult};
    ghost use Rattle.std.specs.List.{slice_get};
    ghost use Rattle.std.specs.Option.{option_map};
    ghost use Rattle.definition.specs.Definitions.{member, reserved};
    ghost use Rattle.definition.specs.Meaning.{macro_of};
    ghost use Rattle.definitions.specs.InForce.{slot as slot_of, found, same, added, defining, without};
    ghost use Rattle.definitions.specs.Meaning.{in_force, stored_macro};

    // No definitions, with room for as many as may ever be in force.
    pub fn new(heap: Global) -> Result<Definitions, AllocError>
        ensures { IfOk result (λ d. in_force d ≡ []) }
    {
        Ok(Definitions {
            force: Store::new(heap)?,
            spare: Store::new(heap)?,
            hints: Hints::new(),
        })
    }

    // Refused, with no change, where the name is defined otherwise, or the definitions would become
    // too many or too long. A definition that is in force already is not added again.
    pub fn define(&mut self, definition: Definition<'_>) -> Result<(), FaultKind>
        ensures { MatchResult result (λ _. defining (in_force self.old) (macro_of definition.entry) ≡ Ok (in_force self.new)) (λ f. (defining (in_force self.old) (macro_of definition.entry) ≡ Err f) × (in_force self.new ≡ in_force self.old)) }
    {
        match self.is_known(definition) {
            Some(true) => Ok(()),
            Some(false) => Err(FaultKind::OtherDefinition),
            None => self.add(definition),
        }
    }

    // Whether the definition in force of the name is the same, where there is one.
    fn is_known(&self, definition: Definition<'_>) -> Option<bool>
        ensures { result ≡ option_map (λ o. same o (macro_of definition.entry)) (found definition.entry.name.now (in_force self.now)) }
    {
        let stored = self.get(self.find(definition.name)?)?;
        Some(same_macro(stored, definition))
    }

    // One more definition, where it fits, of a name that has none.
    fn add(&mut self, definition: Definition<'_>) -> Result<(), FaultKind>
        requires { slot_of definition.name.now (in_force self.old) ≡ None }
        ensures { MatchResult result (λ _. added (in_force self.old) (macro_of definition.entry) None ≡ Ok (in_force self.new)) (λ f. (added (in_force self.old) (macro_of definition.entry) None ≡ Err f) × (in_force self.new ≡ in_force self.old)) }
    {
        if !self.force.fits(definition) {
            return Err(FaultKind::ManyDefinitions);
        }
        self.hints.put(definition.name, self.force.len());
        self.force.append(definition);
        Ok(())
    }

    // Refused, with no change, for a name that cannot be undefined.
    pub fn undefine(&mut self, name: &[u8]) -> Result<(), FaultKind>
        ensures done { is_ok result ≡ not (member name.now reserved) }
        ensures fault { IfErr result (λ f. f ≡ FaultKind.BadDefinition) }
        ensures rest { in_force self.new ≡ (if is_ok result then without name.now (in_force self.old) else in_force self.old) }
    {
        if is_reserved(name) {
            return Err(FaultKind::BadDefinition);
        }
        self.remove(name);
        Ok(())
    }

    fn remove(&mut self, name: &[u8])
        ensures { in_force self.new ≡ without name.now (in_force self.old) }
    {
        if self.find(name).is_none() {
            return;
        }
        self.spare.take_others(&self.force, name);
        std::mem::swap(&mut self.force, &mut self.spare);
        self.hints.note_all(&self.force);
    }

    // The slot of a name.
    pub fn find(&self, name: &[u8]) -> Option<usize>
        ensures slot { result ≡ slot_of name.now (in_force self.now) }
        ensures within { (k : ℕ) → result ≡ Some k → k < 256 }
    {
        let guess = self.hints.get(name)?;
        if self.force.is_named(guess, name) {
            return Some(guess);
        }
        self.force.find(name)
    }

    // The definition in a slot, or none past the last.
    pub fn get(&self, slot: usize) -> Option<Macro<'_>>
        ensures { option_map stored_macro result ≡ slice_get (in_force self.now) slot }
    {
        self.force.get(slot)
    }
}
