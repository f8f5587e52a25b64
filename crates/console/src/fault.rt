ghost use Rattle.std.specs.Prelude.{◌≡◌};
ghost use Rattle.console.specs.declared.fault.Trouble.TheVariants.{Refused, Memory};
ghost use Rattle.console.specs.Faults.{refusal, refusal_of, from_line, from_group, from_cabinet, from_parse};

use groups::fault::GroupFault;
use lines::answer::Refusal;
use lines::fault::{LineFault, ParseError};
use sharing::fault::CabinetFault;
use std::alloc::AllocError;

// Why the console refuses a line. The faults of the layers below are carried whole.
#[derive(Clone, Copy, PartialEq, Eq, Debug)]
pub enum ConsoleFault {
    Line(LineFault),
    // There is no cabinet yet.
    NoCabinet,
    // There is a cabinet already.
    CabinetExists,
    Group(GroupFault),
    Cabinet(CabinetFault),
}

impl ConsoleFault {
    // A table of numbers and one of places: the formats fix them, and lower faults have theirs.
    pub fn number(self) -> u32
        ensures { result ≡ (refusal self).0 }
    {
        match self {
            ConsoleFault::Line(fault) => fault.number(),
            ConsoleFault::NoCabinet => 30,
            ConsoleFault::CabinetExists => 30,
            ConsoleFault::Group(fault) => fault.number(),
            ConsoleFault::Cabinet(fault) => fault.number(),
        }
    }

    pub fn place(self) -> usize
        ensures { result ≡ (refusal self).1 }
    {
        match self {
            ConsoleFault::Line(fault) => fault.place(),
            ConsoleFault::NoCabinet => 0,
            ConsoleFault::CabinetExists => 0,
            ConsoleFault::Group(fault) => fault.place(),
            ConsoleFault::Cabinet(fault) => fault.place(),
        }
    }
}

// Each `From` here is written out: clauses name the variant, and a derived one has no contract.
impl From<LineFault> for ConsoleFault {
    ghost from_gives = { λ e f. f ≡ from_line e };

    fn from(value: LineFault) -> ConsoleFault {
        ConsoleFault::Line(value)
    }
}

impl From<GroupFault> for ConsoleFault {
    ghost from_gives = { λ e f. f ≡ from_group e };

    fn from(value: GroupFault) -> ConsoleFault {
        ConsoleFault::Group(value)
    }
}

impl From<CabinetFault> for ConsoleFault {
    ghost from_gives = { λ e f. f ≡ from_cabinet e };

    fn from(value: CabinetFault) -> ConsoleFault {
        ConsoleFault::Cabinet(value)
    }
}

// A fault as it is answered: its number and its place.
impl From<ConsoleFault> for Refusal {
    ghost from_gives = { λ f r. r ≡ refusal_of f };

    fn from(fault: ConsoleFault) -> Refusal {
        Refusal {
            number: fault.number(),
            place: fault.place(),
        }
    }
}

// Why a line is not done: it is refused, or memory runs out. As `ParseError` of the lines is, but with a fault of its own: of a type
// over both faults the `From`s would overlap.
#[derive(Clone, Copy)]
pub(crate) enum Trouble {
    Refused(ConsoleFault),
    Memory(AllocError),
}

impl From<AllocError> for Trouble {
    ghost from_gives = { λ e t. t ≡ Memory e };

    fn from(value: AllocError) -> Trouble {
        Trouble::Memory(value)
    }
}

impl From<ConsoleFault> for Trouble {
    ghost from_gives = { λ e t. t ≡ Refused e };

    fn from(value: ConsoleFault) -> Trouble {
        Trouble::Refused(value)
    }
}

impl From<ParseError> for Trouble {
    ghost from_gives = { λ e t. t ≡ from_parse e };

    fn from(value: ParseError) -> Trouble {
        match value {
            ParseError::Line(fault) => Trouble::Refused(ConsoleFault::from(fault)),
            ParseError::Memory(error) => Trouble::Memory(error),
        }
    }
}

impl From<GroupFault> for Trouble {
    ghost from_gives = { λ e t. t ≡ Refused (from_group e) };

    fn from(value: GroupFault) -> Trouble {
        Trouble::Refused(ConsoleFault::from(value))
    }
}

impl From<CabinetFault> for Trouble {
    ghost from_gives = { λ e t. t ≡ Refused (from_cabinet e) };

    fn from(value: CabinetFault) -> Trouble {
        Trouble::Refused(ConsoleFault::from(value))
    }
}
