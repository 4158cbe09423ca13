// Macro replacement: its definition, by laws and worked examples.
#![tactic(auto)]

ghost use Rattle.replacement.specs.Laws.{Unbounded, Unchanged, Settled, Parting};
ghost use Rattle.replacement.specs.Worked.{Worked};

// What is shown of the definition of replacement. The answer itself says nothing.
pub fn definition_stands() -> u8
    ensures worked { Worked }
    ensures unbounded { Unbounded }
    ensures unchanged { Unchanged }
    ensures settled { Settled }
    ensures parting { Parting }
{
    0
}
