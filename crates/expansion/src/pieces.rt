// The pieces of a result before joining.
ghost use Rattle.std.specs.Prelude.{◌≡◌, ℕ, true, List, ◌++◌, is_ok, MatchResult, OnOk};
ghost use Rattle.source.specs.declared.Ending.TheVariants.{Fails};
ghost use Rattle.token.specs.Tables.{referred};
ghost use Rattle.item.specs.Tables.{held, shown, referred_to};
ghost use Rattle.item.specs.Tagged.{fit};
ghost use Rattle.definition.specs.Definitions.{Macro};
ghost use Rattle.replacement.specs.Items.{giving, placing};
ghost use Rattle.replacement.specs.Meaning.{items_of, end_of};
ghost use Rattle.invocation.specs.Calls.{arguments_in};
ghost use Rattle.operators.specs.Pieces.{pieces_of};
ghost use Rattle.expansion.specs.Parts.{added_to, plainly, placemarker, plains, raws, Sized};

use crate::part::Part;
use invocation::Arguments;
use item::{HideSet, TagRef, TagTable, TagView};
use operators::{Role, Spelling, write_literal};
use text::{FaultKind, Full};
use token::{Kind, TokenRef};

// Adds what a token of the list becomes. An argument that is expanded has been expanded to the given tokens.
pub(crate) fn add_part(
    part: Part,
    token: TokenRef<'_>,
    line: u32,
    arguments: &Arguments,
    expanded: &TagTable<HideSet>,
    spelling: &mut Spelling,
    pieces: &mut TagTable<Role>,
) -> Result<(), FaultKind>
    requires { Sized (held pieces.old) }
    ensures added { (ms : List Macro) (left : ℕ) → MatchResult result (λ _. added_to line (arguments_in ms arguments.now) (items_of ms (held expanded.now)) (referred token.entry) part (pieces_of ms (held pieces.old)) left ≡ giving (pieces_of ms (held pieces.new)) left) (λ k. (added_to line (arguments_in ms arguments.now) (items_of ms (held expanded.now)) (referred token.entry) part (pieces_of ms (held pieces.old)) left).ending ≡ end_of (Fails (record { kind = k; line = line }))) }
    ensures sized { OnOk result (Sized (held pieces.new)) }
{
    let pushed = match part {
        Part::Token => pieces.push(placed(token, line, Role::Plain(HideSet::empty()))),
        Part::Join => pieces.push(placed(token, line, Role::Join)),
        Part::Literal(index) => {
            write_literal(spelling, arguments.get(index))?;
            let literal = TokenRef {
                kind: Kind::String,
                spelling: spelling.bytes(),
                ..token
            };
            pieces.push(placed(literal, line, Role::Plain(HideSet::empty())))
        }
        Part::Raw(index) => push_raw(pieces, arguments.get(index), token.marked),
        Part::Expanded(_) => push_items(pieces, expanded.view(), token.marked),
    };
    pushed.map_err(FaultKind::from)
}

// A token of the list, on the line of the name.
fn placed<'a>(token: TokenRef<'a>, place: u32, role: Role) -> TagRef<'a, Role>
    ensures { referred_to result ≡ record { token = placing place (referred token.entry); tag = role } }
{
    TagRef {
        token: TokenRef {
            line: place,
            ..token
        },
        tag: role,
    }
}

// A placemarker.
fn nothing<'a>() -> TagRef<'a, Role>
    ensures { referred_to result ≡ placemarker }
{
    TagRef {
        token: TokenRef {
            kind: Kind::Other,
            spelling: &[],
            line: 0,
            marked: false,
        },
        tag: Role::Nothing,
    }
}

// An argument as it stands; a placemarker where it has no tokens.
fn push_raw(
    pieces: &mut TagTable<Role>,
    argument: TagView<'_, HideSet>,
    marked: bool,
) -> Result<(), Full>
    ensures room { is_ok result ≡ fit (held pieces.old ++ raws marked (shown argument.entry)) }
    ensures added { is_ok result ≡ true → held pieces.new ≡ held pieces.old ++ raws marked (shown argument.entry) }
{
    if argument.len() == 0 {
        return pieces.push(nothing());
    }
    push_items(pieces, argument, marked)
}

// Tokens of an argument, the first with the mark of the parameter.
#[tactic(auto, using(crate::proofs::Pushed::too_many))]
fn push_items(
    pieces: &mut TagTable<Role>,
    mut items: TagView<'_, HideSet>,
    marked: bool,
) -> Result<(), Full>
    ensures room { is_ok result ≡ fit (held pieces.old ++ plains marked (shown items.entry)) }
    ensures added { is_ok result ≡ true → held pieces.new ≡ held pieces.old ++ plains marked (shown items.entry) }
{
    if let Some(first) = items.next() {
        pieces.push(plain(first, marked))?;
    }
    for item in items {
        pieces.push(plain(item, item.token.marked))?;
    }
    Ok(())
}

fn plain<'a>(item: TagRef<'a, HideSet>, marked: bool) -> TagRef<'a, Role>
    ensures { referred_to result ≡ plainly marked (referred_to item.entry) }
{
    TagRef {
        token: TokenRef {
            marked,
            ..item.token
        },
        tag: Role::Plain(item.tag),
    }
}
