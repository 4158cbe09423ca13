// A result goes before W.
ghost use Rattle.std.specs.Prelude.{◌≡◌, true, not, List, reverse, is_ok, if◌then◌else◌};
ghost use Rattle.item.specs.Tables.{held, referred_to};
ghost use Rattle.definition.specs.Definitions.{Macro};
ghost use Rattle.replacement.specs.Items.{over, hiding, marking};
ghost use Rattle.replacement.specs.Meaning.{item_of, items_of, hidden};
ghost use Rattle.operators.specs.Placing.{placed_before};
ghost use Rattle.operators.specs.Sets.{with_set, with_sets};

use crate::hides::Hides;
use item::{HideSet, Name, TagRef, TagTable};
use text::Full;
use token::TokenRef;

// The tokens go before W, which is kept with its first token last: each hides the name's set too, and the first has
// the name's mark. Refused where W would hold too many; what it holds is then left open.
pub(crate) fn put_before<T: Hides + Copy + Drop>(
    tokens: &TagTable<T>,
    name: Name,
    w: &mut TagTable<HideSet>,
) -> Result<(), Full>
    ensures room { (ms : List Macro) → is_ok result ≡ not (over (placed_before name.marked (hidden ms name.hides) (items_of ms (reverse (held w.old))) (items_of ms (with_sets T.Hides.set (held tokens.now))))) }
    ensures before { (ms : List Macro) → is_ok result ≡ true → items_of ms (reverse (held w.new)) ≡ placed_before name.marked (hidden ms name.hides) (items_of ms (reverse (held w.old))) (items_of ms (with_sets T.Hides.set (held tokens.now))) }
{
    let mut items = tokens.view();
    while let Some(item) = items.next_back() {
        w.push(in_place_of(name, item, items.len() == 0))?;
    }
    Ok(())
}

// A token of the result for a name: it hides the name's set too, and the first has the name's mark.
fn in_place_of<'a, T: Hides>(name: Name, item: TagRef<'a, T>, first: bool) -> TagRef<'a, HideSet>
    ensures { (ms : List Macro) → item_of ms (referred_to result) ≡ marking (if first then name.marked else item.entry.token.marked) (hiding (hidden ms name.hides) (item_of ms (with_set T.Hides.set (referred_to item.entry)))) }
{
    let marked = if first {
        name.marked
    } else {
        item.token.marked
    };
    TagRef {
        token: TokenRef {
            marked,
            ..item.token
        },
        tag: item.tag.hides().joined(name.hides),
    }
}
