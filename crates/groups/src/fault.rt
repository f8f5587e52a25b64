ghost use Rattle.std.specs.Prelude.{◌≡◌};
ghost use Rattle.groups.specs.Faults.{refusal};

// Why a group, or what is read or written of it, was refused.
#[derive(Clone, Copy, PartialEq, Eq, Debug)]
pub enum GroupFault {
    // The modulus is out of range.
    Modulus,
    // The bytes are no element's, or there are too few or too many of them.
    Encoding,
}

impl GroupFault {
    // A table of numbers and one of places: the format fixes them, and other faults have theirs.
    pub fn number(self) -> u32
        ensures { result ≡ (refusal self).0 }
    {
        match self {
            GroupFault::Modulus => 2,
            GroupFault::Encoding => 23,
        }
    }

    pub fn place(self) -> usize
        ensures { result ≡ (refusal self).1 }
    {
        match self {
            GroupFault::Modulus => 0,
            GroupFault::Encoding => 0,
        }
    }
}
