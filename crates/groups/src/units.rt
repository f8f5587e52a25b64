ghost use Rattle.std.specs.Prelude.{◌≡◌, ◌≤◌, MatchResult};
ghost use Rattle.groups.specs.Forms.{number_form};
ghost use Rattle.groups.specs.Units.{units, InRange, Combines};
ghost use Rattle.groups.specs.declared.fault.GroupFault.TheVariants.{Modulus};
ghost use Rattle.std.proofs.Common.{arith, rules};
ghost use Rattle.groups.specs.Multiples.{units_laws};

use crate::bytes::{read_where, write_number};
use crate::encoded::{EncodedGroup, ShortGroup};
use crate::fault::GroupFault;
use crate::group::Group;
use crate::modulus::check_modulus;

const LEAST_MODULUS: u32 = 3;

// The numbers from 1 up to a modulus that have no divisor but 1 in common with it, under
// multiplication modulo it. The zero of the group is 1, and a number's negative its inverse.
#[derive(Clone, Copy)]
pub struct Units {
    pub modulus: u32,
    ghost sound: { InRange modulus },
}

impl Units {
    // Refuses a modulus below 3 or above 2,147,483,647.
    pub fn new(modulus: u32) -> Result<Self, GroupFault>
        ensures { MatchResult result (λ g. InRange modulus × (g.modulus ≡ modulus)) (λ e. (InRange modulus → ⊥) × (e ≡ Modulus)) }
    {
        check_modulus(LEAST_MODULUS, modulus)?;
        Ok(Units { modulus })
    }
}

// The greatest common divisor of two numbers, and the factors by which they make it.
#[derive(Clone, Copy)]
struct Bezout {
    divisor: u64,
    first: u64,
    second: u64,
}

// Euclid's algorithm on a and b, with the two factors modulo n.
fn euclid(a: u64, b: u64, n: u64) -> Bezout
    requires { (2 ≤ n) × (n ≤ 2147483647) × (a ≤ n) × (b ≤ n) }
    ensures { Combines n a b result.divisor result.first result.second }
{
    if b == 0 {
        return Bezout {
            divisor: a,
            first: 1,
            second: 0,
        };
    }
    let rest = euclid(b, a % b, n);
    let taken = a / b * rest.second % n;
    Bezout {
        divisor: rest.divisor,
        first: rest.second,
        second: (rest.first + (n - taken)) % n,
    }
}

impl Group for Units {
    type Element = u32;

    ghost ops = { λ g. units g.modulus };

    ghost laws = { λ g. units_laws g.modulus (omega arith) };

    fn is_valid(&self, a: u32) -> bool {
        if a == 0 || a >= self.modulus {
            return false;
        }
        let modulus = u64::from(self.modulus);
        euclid(u64::from(a), modulus, modulus).divisor == 1
    }

    fn same(&self, a: u32, b: u32) -> bool {
        a == b
    }

    fn zero(&self) -> u32 {
        1
    }

    fn sum(&self, a: u32, b: u32) -> u32 {
        (u64::from(a) * u64::from(b) % u64::from(self.modulus)) as u32
    }

    fn negative(&self, a: u32) -> u32 {
        let modulus = u64::from(self.modulus);
        euclid(u64::from(a) % modulus, modulus, modulus).first as u32
    }
}

// `Sums` has nearly the same: one impl for both, over a trait with laws, is longer than the two.
impl EncodedGroup for Units {
    ghost form = { λ g. number_form 3 g.modulus };

    ghost encoded = { Prim.search rules };

    fn id(&self) -> u8 {
        3
    }

    fn modulus(&self) -> u32 {
        self.modulus
    }

    fn width(&self) -> usize {
        4
    }

    fn write(&self, a: u32, out: &mut [u8]) -> Result<(), GroupFault> {
        write_number(a, out)
    }

    fn read(&self, bytes: &[u8]) -> Result<u32, GroupFault> {
        read_where(bytes, |a| self.is_valid(a))
    }
}

impl ShortGroup for Units {
    ghost short = { Prim.search rules };
}
