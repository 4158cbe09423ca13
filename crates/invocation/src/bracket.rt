// What a token is to the parentheses around it.
ghost use Rattle.std.specs.Prelude.{◌≡◌, ◌<◌};
ghost use Rattle.item.specs.Tables.{referred_to};
ghost use Rattle.invocation.specs.declared.bracket.GatherError.TheVariants.{Full as FullTable};
ghost use Rattle.invocation.specs.Calls.{end_before};
ghost use Rattle.invocation.specs.Fronts.{bracket_of, depth_behind};

use item::{HideSet, TagRef};
use text::Full;

#[derive(Clone, Copy, PartialEq, Debug)]
pub enum Bracket {
    Opens,
    Closes(HideSet),
    Inner,
    End,
}

// Why the tokens up to the matching `)` cannot be gathered: the run ends before it, or they are too many.
#[derive(Clone, Copy, PartialEq, Debug)]
pub enum GatherError {
    Open,
    Full,
}

impl From<Full> for GatherError {
    ghost from_gives = { λ _ r. r ≡ FullTable };

    fn from(_full: Full) -> GatherError {
        GatherError::Full
    }
}

pub(crate) fn bracket_of(item: TagRef<'_, HideSet>) -> Bracket
    ensures { result ≡ bracket_of (referred_to item.entry) }
{
    if item.token.spells(b"(") {
        Bracket::Opens
    } else if item.token.spells(b")") {
        Bracket::Closes(item.tag)
    } else {
        Bracket::Inner
    }
}

// How gathering ends before a token, if it does.
pub(crate) fn ends_before(depth: usize, bracket: Bracket) -> Option<Result<HideSet, GatherError>>
    ensures { result ≡ end_before depth bracket }
{
    match bracket {
        Bracket::End => Some(Err(GatherError::Open)),
        Bracket::Closes(hides) if depth == 0 => Some(Ok(hides)),
        Bracket::Opens | Bracket::Closes(_) | Bracket::Inner => None,
    }
}

// How many parentheses are open behind a token.
pub(crate) fn depth_behind(depth: usize, bracket: Bracket) -> usize
    requires { depth < 1025 }
    ensures { result ≡ depth_behind depth bracket }
{
    match bracket {
        Bracket::Opens => depth + 1,
        Bracket::Closes(_) => depth.saturating_sub(1),
        Bracket::Inner | Bracket::End => depth,
    }
}
