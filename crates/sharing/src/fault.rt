ghost use Rattle.std.specs.Prelude.{◌≡◌};
ghost use Rattle.sharing.specs.Faults.{refusal};

// Why a call of the cabinet was refused, and where.
#[derive(Clone, Copy, PartialEq, Eq, Debug)]
pub enum CabinetFault {
    // No scheme has this threshold and this many holders.
    Scheme,
    // Share memory or working memory of a wrong length: the right one.
    MemoryLength(usize),
    // An invalid element in the share memory: its index.
    InvalidShare(usize),
    // The last epoch is reached.
    EpochLimit,
    InvalidKey,
    // Not the coefficients of a whole polynomial: the right number of elements.
    CoefficientCount(usize),
    // An invalid element among the coefficients: its index.
    InvalidCoefficient(usize),
    // A single holder that the scheme does not have.
    UnknownHolder,
    // Revoking a holder whose share is missing, or repairing one whose share is present.
    WrongPresence,
    // Not exactly as many helpers as the threshold: how many there are.
    HelperCount(usize),
    // A helper that the scheme does not have: its position.
    UnknownHelper(usize),
    // A helper that is named before: its second position.
    RepeatedHelper(usize),
    // A helper whose share is missing: its position.
    MissingHelper(usize),
    // The shares do not belong together: the first coordinate above 0 that is not zero.
    Disagreement(usize),
}

impl CabinetFault {
    // A table of numbers and one of places: the formats fix them.
    pub fn number(self) -> u32
        ensures { result ≡ (refusal self).0 }
    {
        match self {
            CabinetFault::Scheme => 1,
            CabinetFault::MemoryLength(_) => 3,
            CabinetFault::InvalidShare(_) => 4,
            CabinetFault::EpochLimit => 5,
            CabinetFault::InvalidKey => 6,
            CabinetFault::CoefficientCount(_) => 7,
            CabinetFault::InvalidCoefficient(_) => 8,
            CabinetFault::UnknownHolder => 9,
            CabinetFault::WrongPresence => 10,
            CabinetFault::HelperCount(_) => 11,
            CabinetFault::UnknownHelper(_) => 12,
            CabinetFault::RepeatedHelper(_) => 13,
            CabinetFault::MissingHelper(_) => 14,
            CabinetFault::Disagreement(_) => 15,
        }
    }

    pub fn place(self) -> usize
        ensures { result ≡ (refusal self).1 }
    {
        match self {
            CabinetFault::Scheme
            | CabinetFault::EpochLimit
            | CabinetFault::InvalidKey
            | CabinetFault::UnknownHolder
            | CabinetFault::WrongPresence => 0,
            CabinetFault::MemoryLength(place)
            | CabinetFault::InvalidShare(place)
            | CabinetFault::CoefficientCount(place)
            | CabinetFault::InvalidCoefficient(place)
            | CabinetFault::HelperCount(place)
            | CabinetFault::UnknownHelper(place)
            | CabinetFault::RepeatedHelper(place)
            | CabinetFault::MissingHelper(place)
            | CabinetFault::Disagreement(place) => place,
        }
    }
}
