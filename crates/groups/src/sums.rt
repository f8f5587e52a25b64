ghost use Rattle.std.specs.Prelude.{◌≡◌, MatchResult};
ghost use Rattle.groups.specs.Forms.{number_form};
ghost use Rattle.groups.specs.Sums.{sums, InRange};
ghost use Rattle.groups.specs.declared.fault.GroupFault.TheVariants.{Modulus};
ghost use Rattle.groups.specs.Modulo.{sums_laws};
ghost use Rattle.std.proofs.Common.{rules};

use crate::bytes::{read_where, write_number};
use crate::encoded::{EncodedGroup, ShortGroup};
use crate::fault::GroupFault;
use crate::group::Group;
use crate::modulus::check_modulus;

const LEAST_MODULUS: u32 = 2;

// The numbers below a modulus, under addition modulo it.
#[derive(Clone, Copy)]
pub struct Sums {
    pub modulus: u32,
    ghost sound: { InRange modulus },
}

impl Sums {
    // Refuses a modulus below 2 or above 2,147,483,647.
    pub fn new(modulus: u32) -> Result<Self, GroupFault>
        ensures { MatchResult result (λ g. InRange modulus × (g.modulus ≡ modulus)) (λ e. (InRange modulus → ⊥) × (e ≡ Modulus)) }
    {
        check_modulus(LEAST_MODULUS, modulus)?;
        Ok(Sums { modulus })
    }
}

impl Group for Sums {
    type Element = u32;

    const DEAR_NEGATIVES: bool = false;

    ghost ops = { λ g. sums g.modulus };

    ghost laws = { λ g. sums_laws g.modulus g.sound.0 };

    fn is_valid(&self, a: u32) -> bool {
        a < self.modulus
    }

    fn same(&self, a: u32, b: u32) -> bool {
        a == b
    }

    fn zero(&self) -> u32 {
        0
    }

    // Of two valid elements the sum is below 2^32, and less the modulus it either wraps or is the
    // lesser.
    fn sum(&self, a: u32, b: u32) -> u32 {
        let total = a.wrapping_add(b);
        total.min(total.wrapping_sub(self.modulus))
    }

    // The modulus less a valid element is the lesser, but for zero.
    fn negative(&self, a: u32) -> u32 {
        let wrapped = 0u32.wrapping_sub(a);
        wrapped.min(self.modulus.wrapping_sub(a))
    }

    // Where the second is greater the difference wraps, and with the modulus it is the lesser.
    fn difference(&self, a: u32, b: u32) -> u32 {
        let rest = a.wrapping_sub(b);
        rest.min(rest.wrapping_add(self.modulus))
    }
}

impl EncodedGroup for Sums {
    ghost form = { λ g. number_form 2 g.modulus };

    ghost encoded = { Prim.search rules };

    fn id(&self) -> u8 {
        2
    }

    fn modulus(&self) -> u32 {
        self.modulus
    }

    fn width(&self) -> usize {
        4
    }

    fn write(&self, a: u32, out: &mut [u8]) -> Result<(), GroupFault> {
        write_number(a, out)
    }

    fn read(&self, bytes: &[u8]) -> Result<u32, GroupFault> {
        read_where(bytes, |a| self.is_valid(a))
    }
}

impl ShortGroup for Sums {
    ghost short = { Prim.search rules };
}
