ghost use Rattle.std.specs.Prelude.{◌≡◌, MatchResult};
ghost use Rattle.groups.specs.declared.fault.GroupFault.TheVariants.{Modulus};
ghost use Rattle.console.specs.Faults.{from_group};
ghost use Rattle.console.specs.Held.{holding, Answers};
ghost use Rattle.console.specs.Requests.{called};
ghost use Rattle.console.specs.Responses.{InRange, Fresh, IfRefused};

use crate::fault::Trouble;
use crate::request::{Call, Kind};
use crate::seat::Seat;
use groups::sums::Sums;
use groups::units::Units;
use sharing::fault::CabinetFault;
use sharing::scheme::Scheme;
use std::alloc::Global;

// The cabinet that a console holds: over sums or over units.
#[derive(Drop)]
pub enum Held {
    Sums(Seat<Sums>),
    Units(Seat<Units>),
}

impl Held {
    // A new cabinet of a group, in memory of its own.
    pub(crate) fn make(
        heap: Global,
        kind: Kind,
        modulus: u32,
        scheme: Scheme,
    ) -> Result<Self, Trouble>
        ensures { MatchResult result (λ h. Fresh kind modulus scheme (holding h)) (IfRefused (λ f. (InRange kind modulus → ⊥) × (f ≡ from_group Modulus))) }
    {
        // Each group has a `new` of its own, which no trait has, so there is an arm for each.
        match kind {
            Kind::Sums => {
                let sums = Sums::new(modulus)?;
                Ok(Held::Sums(Seat::make(heap, sums, scheme)?))
            }
            Kind::Units => {
                let units = Units::new(modulus)?;
                Ok(Held::Units(Seat::make(heap, units, scheme)?))
            }
        }
    }

    // Makes a call on the cabinet that is held.
    pub(crate) fn obey(&mut self, call: Call) -> Result<u32, CabinetFault>
        ensures { Answers (holding self.old) (called call.entry) result (holding self.new) }
    {
        // Two groups and no `dyn`, since a contract says which of them the cabinet is over.
        match self {
            Held::Sums(seat) => seat.obey(call),
            Held::Units(seat) => seat.obey(call),
        }
    }
}
