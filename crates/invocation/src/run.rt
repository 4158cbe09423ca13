// Where the tokens of a run come from.
ghost use Rattle.std.specs.Prelude.{◌≡◌, List, drop, is_some, Option};
ghost use Rattle.std.specs.List.{slice_get};
ghost use Rattle.std.specs.Option.{option_map};
ghost use Rattle.source.specs.declared.Ending.{Ending};
ghost use Rattle.item.specs.declared.hide_set.HideSet.{HideSet};
ghost use Rattle.item.specs.Tables.{referred_to};
ghost use Rattle.item.specs.Tagged.{Tagged};

use item::{HideSet, TagRef};
use source::Ending;

// The tokens still to come, and how they end. The first of them may have to be fetched before it is at hand.
pub trait Run {
    ghost rest: { Self → List (Tagged HideSet) };

    ghost hand: { Self → Option (Tagged HideSet) };

    ghost end: { Self → Ending };

    // Whether a token is left; it is then at hand.
    fn fill(&mut self) -> bool
        ensures left { result ≡ is_some (slice_get (rest self.old) 0) }
        ensures fetched { hand self.new ≡ slice_get (rest self.new) 0 }
        ensures same { (rest self.new ≡ rest self.old) × (end self.new ≡ end self.old) };

    // The token at hand.
    fn first(&self) -> Option<TagRef<'_, HideSet>>
        ensures { option_map referred_to result ≡ hand self.now };

    // Goes behind the token at hand.
    fn advance(&mut self)
        ensures behind { hand self.old ≡ slice_get (rest self.old) 0 → rest self.new ≡ drop 1 (rest self.old) }
        ensures same { end self.new ≡ end self.old };

    // How the run ends.
    fn ending(&self) -> Ending
        ensures { result ≡ end self.now };
}
