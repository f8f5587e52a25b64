ghost use Rattle.std.specs.Prelude.{◌≡◌, alloc_error};
ghost use Rattle.lines.specs.Faults.{refusal};
ghost use Rattle.lines.specs.declared.fault.ParseError.TheVariants.{Line, Memory};

use std::alloc::{AllocError, AllocFailed};

// Why a line is refused.
#[derive(Clone, Copy, Debug, PartialEq, Eq)]
pub enum LineFault {
    // The line cannot be read: the offset of the first byte that is wrong.
    Unreadable(usize),
}

impl LineFault {
    // The number and the place are what the console's format prints.
    pub fn number(self) -> u32
        ensures { result ≡ (refusal self).0 }
    {
        match self {
            LineFault::Unreadable(_) => 29,
        }
    }

    pub fn place(self) -> usize
        ensures { result ≡ (refusal self).1 }
    {
        match self {
            LineFault::Unreadable(place) => place,
        }
    }
}

// Why a line gives no letter: it is refused, or its numbers found no memory.
#[derive(Clone, Copy, Debug, PartialEq, Eq)]
pub enum ParseError {
    Line(LineFault),
    Memory(AllocError),
}

// Each `From` is written out: clauses name the variant, and a derived one has no contract.
impl From<LineFault> for ParseError {
    ghost from_gives = { λ e r. r ≡ Line e };

    fn from(value: LineFault) -> ParseError {
        ParseError::Line(value)
    }
}

impl From<AllocError> for ParseError {
    ghost from_gives = { λ e r. r ≡ Memory e };

    fn from(value: AllocError) -> ParseError {
        ParseError::Memory(value)
    }
}

impl<T: Drop> From<AllocFailed<T>> for ParseError {
    ghost from_gives = { λ _ r. r ≡ Memory alloc_error };

    fn from(value: AllocFailed<T>) -> ParseError {
        ParseError::Memory(AllocError::from(value))
    }
}
