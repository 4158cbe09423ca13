// What a text is made of: bytes on physical lines, and what can be wrong with them.
#![tactic(auto)]

ghost use Rattle.std.specs.Prelude.{◌≡◌, Some};
ghost use Rattle.text.specs.Faults.{fault_number, fault_phase, fault_text};
ghost use Rattle.text.specs.declared.FaultKind.TheVariants.{ManyTokens};

pub mod bytes;
mod slices;

pub use slices::{same_bytes, slice_of};
use std::fmt;

// A byte and the physical line that it stands on.
#[derive(Clone, Copy, PartialEq, Debug)]
pub struct Placed {
    pub byte: u8,
    pub line: u32,
}

// What can be wrong with a text.
#[derive(Clone, Copy, PartialEq, Debug)]
pub enum FaultKind {
    BrokenFile = 11,
    BadByte = 12,
    LongFile = 13,
    OpenComment = 31,
    OpenLiteral = 32,
    LongLine = 33,
    LongToken = 34,
    UnknownDirective = 40,
    BadDirective = 41,
    BadDefinition = 44,
    OtherDefinition = 45,
    OpenCall = 51,
    ArgumentCount = 52,
    BadJoin = 53,
    BadLiteral = 54,
    ManyDefinitions = 61,
    ManyTokens = 64,
    ManyReplacements = 65,
    DeepArguments = 66,
}

impl FaultKind {
    // The number of the fault.
    pub fn number(self) -> u8
        ensures { result ≡ fault_number self }
    {
        self as u8
    }

    // The translation phase that meets it.
    pub fn phase(self) -> u8
        ensures { result ≡ fault_phase self }
    {
        match self {
            FaultKind::BrokenFile | FaultKind::BadByte | FaultKind::LongFile => 1,
            FaultKind::UnknownDirective
            | FaultKind::BadDirective
            | FaultKind::BadDefinition
            | FaultKind::OtherDefinition
            | FaultKind::OpenCall
            | FaultKind::ArgumentCount
            | FaultKind::BadJoin
            | FaultKind::BadLiteral
            | FaultKind::ManyDefinitions
            | FaultKind::ManyTokens
            | FaultKind::ManyReplacements
            | FaultKind::DeepArguments => 4,
            _ => 3,
        }
    }

    // The fault on a physical line.
    pub fn at(self, line: u32) -> Fault
        ensures { result ≡ record { kind = self; line = line } }
    {
        Fault { kind: self, line }
    }
}

// As the last line of a listing has it.
impl fmt::Display for FaultKind {
    ghost output = { λ k. Some (fault_text k) };

    fn fmt<W: fmt::Write>(&self, f: &mut fmt::Formatter<W>) -> fmt::Result {
        let number = self.number();
        let phase = self.phase();
        write!(f, "fault {number} phase {phase}")
    }
}

// A fault and the physical line that it stands on.
#[derive(Clone, Copy, PartialEq, Debug)]
pub struct Fault {
    pub kind: FaultKind,
    pub line: u32,
}

// A table or a buffer that is full takes no more.
#[derive(Clone, Copy, PartialEq, Debug)]
pub struct Full;

impl From<Full> for FaultKind {
    ghost from_gives = { λ _ r. r ≡ ManyTokens };

    fn from(_full: Full) -> FaultKind {
        FaultKind::ManyTokens
    }
}

// A part of what lies in a row: where it starts, and how long it is. It may run past the end.
#[derive(Clone, Copy, PartialEq, Debug)]
pub struct Extent {
    pub start: usize,
    pub len: usize,
}
