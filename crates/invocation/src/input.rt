// The token that comes next: the first of W, the tokens that wait to be read again, or else the first of the run. W stands
// in a table with its first token last.
ghost use Rattle.std.specs.Prelude.{◌≡◌, ◌++◌, length, take, is_ok, if◌then◌else◌, nat_lt};
ghost use Rattle.std.specs.List.{slice_get};
ghost use Rattle.std.specs.Option.{option_map};
ghost use Rattle.item.specs.Tables.{held, referred_to};
ghost use Rattle.item.specs.Tagged.{fit};
ghost use Rattle.invocation.specs.Fronts.{waiting, front_of, Dropped, bracket};

use crate::bracket::{Bracket, bracket_of};
use crate::run::Run;
use item::{HideSet, TagRef, TagTable};
use text::Full;

// The next token is at hand from here on.
pub fn fetch_front<R: Run>(w: &TagTable<HideSet>, run: &mut R)
    ensures fetched { front_of (waiting w.now) (R.Run.hand run.new) ≡ slice_get (waiting w.now ++ R.Run.rest run.old) 0 }
    ensures same { (R.Run.rest run.new ≡ R.Run.rest run.old) × (R.Run.end run.new ≡ R.Run.end run.old) }
{
    if !is_waiting(w) {
        run.fill();
    }
}

// Whether W holds a token.
fn is_waiting(w: &TagTable<HideSet>) -> bool
    ensures { result ≡ nat_lt 0 (length (held w.now)) }
{
    w.view().len() > 0
}

// The next token, where it is at hand.
pub fn front<'a, R: Run>(w: &'a TagTable<HideSet>, run: &'a R) -> Option<TagRef<'a, HideSet>>
    ensures { option_map referred_to result ≡ front_of (waiting w.now) (R.Run.hand run.now) }
{
    match w.last() {
        Some(item) => Some(item),
        None => run.first(),
    }
}

// What the next token is to the parentheses around it.
pub fn front_bracket<R: Run>(w: &TagTable<HideSet>, run: &mut R) -> Bracket
    ensures answer { result ≡ bracket (slice_get (waiting w.now ++ R.Run.rest run.old) 0) }
    ensures same { (R.Run.rest run.new ≡ R.Run.rest run.old) × (R.Run.end run.new ≡ R.Run.end run.old) }
{
    fetch_front(w, run);
    match front(w, run) {
        Some(item) => bracket_of(item),
        None => Bracket::End,
    }
}

// The next token, where there is one, goes to the end of a table; refused, with no change, where a limit does not allow it.
pub fn move_front<R: Run>(
    w: &mut TagTable<HideSet>,
    run: &mut R,
    to: &mut TagTable<HideSet>,
) -> Result<(), Full>
    ensures room { is_ok result ≡ fit (held to.old ++ take 1 (waiting w.old ++ R.Run.rest run.old)) }
    ensures moved { held to.new ≡ (if is_ok result then held to.old ++ take 1 (waiting w.old ++ R.Run.rest run.old) else held to.old) }
    ensures dropped { Dropped (if is_ok result then 1 else 0) (waiting w.old) (R.Run.rest run.old) (waiting w.new) (R.Run.rest run.new) }
    ensures same { R.Run.end run.new ≡ R.Run.end run.old }
{
    fetch_front(w, run);
    if let Some(item) = front(w, run) {
        to.push(item)?;
    }
    drop_front(w, run);
    Ok(())
}

// The next token is taken away.
pub fn drop_front<R: Run>(w: &mut TagTable<HideSet>, run: &mut R)
    ensures dropped { Dropped 1 (waiting w.old) (R.Run.rest run.old) (waiting w.new) (R.Run.rest run.new) }
    ensures same { R.Run.end run.new ≡ R.Run.end run.old }
{
    if is_waiting(w) {
        w.pop();
    } else {
        run.fill();
        run.advance();
    }
}
