// What a token is to replacement.
ghost use Rattle.std.specs.Prelude.{◌≡◌, false, ◌++◌, Some, None};
ghost use Rattle.std.specs.List.{slice_get};
ghost use Rattle.item.specs.Sets.{in_set};
ghost use Rattle.item.specs.Tables.{referred_to};
ghost use Rattle.invocation.specs.Fronts.{waiting};
ghost use Rattle.steps.specs.Classes.{built_in_name, name_of, defined_class, class_of, class};
ghost use Rattle.steps.specs.Contexts.{macros};

use crate::context::Context;
use invocation::{Run, fetch_front, front};
use item::{HideSet, Name, TagRef, TagTable};
use text::same_bytes;
use token::Kind;

// `__LINE__`, `__FILE__`, `__STDC__` and `__STDC_VERSION__`.
#[derive(Clone, Copy, PartialEq, Debug)]
pub enum BuiltIn {
    Line,
    File,
    Standard,
    Version,
}

// A macro is told by the slot of its definition.
#[derive(Clone, Copy, PartialEq, Debug)]
pub(crate) enum Class {
    End,
    Plain,
    BuiltIn(BuiltIn, Name),
    Object(usize, Name),
    Function(usize, Name),
}

// What the first token of W, or else of the run, is.
pub(crate) fn front_class<R: Run>(context: Context<'_>, w: &TagTable<HideSet>, run: &mut R) -> Class
    ensures answer { result ≡ class (macros context.entry) (slice_get (waiting w.now ++ R.Run.rest run.old) 0) }
    ensures same { (R.Run.rest run.new ≡ R.Run.rest run.old) × (R.Run.end run.new ≡ R.Run.end run.old) }
{
    fetch_front(w, run);
    match front(w, run) {
        Some(item) => class_of(context, item),
        None => Class::End,
    }
}

// A token is plain where it is no identifier, is in its own hide set, or names no macro.
fn class_of(context: Context<'_>, item: TagRef<'_, HideSet>) -> Class
    ensures { result ≡ class_of (macros context.entry) (referred_to item.entry) }
{
    if item.token.kind != Kind::Identifier {
        return Class::Plain;
    }
    let slot = context.definitions.find(item.token.spelling);
    if is_hidden(slot, item.tag) {
        return Class::Plain;
    }
    match built_in(item.token.spelling) {
        Some(name) => Class::BuiltIn(name, name_of(item)),
        None => defined_class(context, slot, name_of(item)),
    }
}

fn name_of(item: TagRef<'_, HideSet>) -> Name
    ensures { result ≡ name_of (referred_to item.entry) }
{
    Name {
        line: item.token.line,
        marked: item.token.marked,
        hides: item.tag,
    }
}

fn is_hidden(slot: Option<usize>, hides: HideSet) -> bool
    ensures { result ≡ elim slot [ None ↦ false | Some k ↦ in_set hides k ] }
{
    slot.is_some_and(|slot| hides.contains(slot))
}

fn built_in(name: &[u8]) -> Option<BuiltIn>
    ensures { result ≡ built_in_name name.now }
{
    if same_bytes(name, b"__LINE__") {
        Some(BuiltIn::Line)
    } else if same_bytes(name, b"__FILE__") {
        Some(BuiltIn::File)
    } else if same_bytes(name, b"__STDC__") {
        Some(BuiltIn::Standard)
    } else if same_bytes(name, b"__STDC_VERSION__") {
        Some(BuiltIn::Version)
    } else {
        None
    }
}

fn defined_class(context: Context<'_>, slot: Option<usize>, name: Name) -> Class
    ensures { result ≡ defined_class (macros context.entry) name slot }
{
    let Some(slot) = slot else {
        return Class::Plain;
    };
    let Some(definition) = context.definitions.get(slot) else {
        return Class::Plain;
    };
    if definition.parameters.is_some() {
        Class::Function(slot, name)
    } else {
        Class::Object(slot, name)
    }
}
