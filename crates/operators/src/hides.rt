// What stands beside a token says which names it hides.
ghost use Rattle.std.specs.Prelude.{◌≡◌};
ghost use Rattle.item.specs.declared.hide_set.HideSet.{HideSet as SlotSet};
ghost use Rattle.operators.specs.Sets.{role_set};

use crate::Role;
use item::HideSet;

// A tag that says which names its token hides.
pub(crate) trait Hides {
    ghost set: { Self → SlotSet };

    fn hides(self) -> HideSet
        ensures { result ≡ set self };
}

impl Hides for HideSet {
    ghost set = { λ h. h };

    fn hides(self) -> HideSet {
        self
    }
}

// An operator and a placemarker hide nothing.
impl Hides for Role {
    ghost set = { role_set };

    fn hides(self) -> HideSet {
        match self {
            Role::Plain(hides) => hides,
            Role::Join | Role::Nothing => HideSet::empty(),
        }
    }
}
