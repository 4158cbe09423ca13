// Results are joined, where they have to be, and go before W.
ghost use Rattle.std.specs.Prelude.{◌≡◌, List, reverse, is_ok, if◌then◌else◌, Ok, Err};
ghost use Rattle.text.specs.declared.FaultKind.TheVariants.{ManyTokens};
ghost use Rattle.item.specs.Tables.{held, referred_to};
ghost use Rattle.definition.specs.Definitions.{Macro};
ghost use Rattle.replacement.specs.Meaning.{items_of, hidden};
ghost use Rattle.operators.specs.Pieces.{pieces_of};
ghost use Rattle.operators.specs.Placing.{Placing};
ghost use Rattle.operators.specs.Sets.{is_plain, all_plain};

use crate::Role;
use crate::join::join_all;
use crate::result::put_before;
use crate::spelling::Spelling;
use item::{HideSet, Name, TagRef, TagTable};
use text::{FaultKind, Full};

// Joins the pieces and puts the tokens that are left before W: each hides the name's set too, and the first has the
// name's mark. Refuses two that do not make one token, and too many for W; what W holds is then left open.
pub fn place_result(
    pieces: &TagTable<Role>,
    joined: &mut TagTable<HideSet>,
    spelling: &mut Spelling,
    name: Name,
    w: &mut TagTable<HideSet>,
) -> Result<(), FaultKind>
    ensures { (ms : List Macro) → Placing name.line name.marked (hidden ms name.hides) (pieces_of ms (held pieces.now)) (items_of ms (reverse (held w.old))) (items_of ms (reverse (held w.new))) result }
{
    if are_plain(pieces) {
        return placed(put_before(pieces, name, w));
    }
    join_all(pieces, name.line, spelling, joined)?;
    placed(put_before(joined, name, w))
}

// A result that W has no room for is too many tokens.
fn placed(room: Result<(), Full>) -> Result<(), FaultKind>
    ensures { result ≡ (if is_ok room then Ok tt else Err ManyTokens) }
{
    match room {
        Ok(()) => Ok(()),
        Err(Full) => Err(FaultKind::ManyTokens),
    }
}

// Whether all pieces are tokens, so that there is nothing to join.
pub(crate) fn are_plain(pieces: &TagTable<Role>) -> bool
    ensures { result ≡ all_plain (held pieces.now) }
{
    pieces.view().all(is_plain)
}

fn is_plain(part: TagRef<'_, Role>) -> bool
    ensures { result ≡ is_plain (referred_to part.entry).tag }
{
    matches!(part.tag, Role::Plain(_))
}
