// Tokens are handed on here.
ghost use Rattle.std.specs.Prelude.{◌≡◌, true, not, [], ◌++◌, is_ok, if◌then◌else◌};
ghost use Rattle.item.specs.Tables.{held, referred_to};
ghost use Rattle.invocation.specs.Fronts.{waiting, Dropped};
ghost use Rattle.replacement.specs.Items.{over};
ghost use Rattle.replacement.specs.Meaning.{items_of};
ghost use Rattle.steps.specs.Contexts.{macros, file_of};
ghost use Rattle.steps.specs.Handing.{built_in_kind, placed_at, named_items, handed_items, taken, Onto};

use crate::built_in::write_built_in;
use crate::class::BuiltIn;
use crate::context::Context;
use crate::prepared::Handed;
use invocation::{Run, move_front};
use item::{HideSet, Name, TagRef, TagTable};
use operators::Spelling;
use text::Full;
use token::{Kind, TokenRef};

// The token goes to the end of a table; refused, with no change, where a limit does not allow it.
pub fn hand_on<R: Run>(
    context: Context<'_>,
    handed: Handed,
    w: &mut TagTable<HideSet>,
    run: &mut R,
    spelling: &mut Spelling,
    to: &mut TagTable<HideSet>,
) -> Result<(), Full>
    ensures room { is_ok result ≡ not (over (items_of (macros context.entry) (held to.old) ++ handed_items (macros context.entry) (file_of context.entry) (waiting w.old ++ R.Run.rest run.old) handed)) }
    ensures moved { items_of (macros context.entry) (held to.new) ≡ (items_of (macros context.entry) (held to.old) ++ (if is_ok result then handed_items (macros context.entry) (file_of context.entry) (waiting w.old ++ R.Run.rest run.old) handed else [])) }
    ensures dropped { is_ok result ≡ true → Dropped (taken handed) (waiting w.old) (R.Run.rest run.old) (waiting w.new) (R.Run.rest run.new) }
    ensures same { R.Run.end run.new ≡ R.Run.end run.old }
{
    match handed {
        Handed::Front => move_front(w, run, to),
        Handed::Name(slot, name) => hand_name(context, slot, name, to),
        Handed::BuiltIn(built_in, name) => {
            write_built_in(built_in, name.line, context, spelling);
            to.push(item_at(built_in_kind(built_in), spelling.bytes(), name))
        }
    }
}

// A function-like name that is not called.
fn hand_name(
    context: Context<'_>,
    slot: usize,
    name: Name,
    to: &mut TagTable<HideSet>,
) -> Result<(), Full>
    ensures { Onto (macros context.entry) (held to.old) (held to.new) (named_items (macros context.entry) slot name) (is_ok result) }
{
    match context.definitions.get(slot) {
        Some(definition) => to.push(item_at(Kind::Identifier, definition.name, name)),
        None => Ok(()),
    }
}

// A token in the place of a name.
fn item_at<'a>(kind: Kind, spelling: &'a [u8], name: Name) -> TagRef<'a, HideSet>
    ensures { referred_to result ≡ placed_at name kind spelling.now }
{
    TagRef {
        token: TokenRef {
            kind,
            spelling,
            line: name.line,
            marked: name.marked,
        },
        tag: name.hides,
    }
}

fn built_in_kind(built_in: BuiltIn) -> Kind
    ensures { result ≡ built_in_kind built_in }
{
    match built_in {
        BuiltIn::File => Kind::String,
        BuiltIn::Line | BuiltIn::Standard | BuiltIn::Version => Kind::Number,
    }
}
