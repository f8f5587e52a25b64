ghost use Rattle.std.specs.Prelude.{◌≡◌, ◌≤◌, ⊤, MatchResult};
ghost use Rattle.groups.specs.Forms.{pair_form};
ghost use Rattle.groups.specs.Pairs.{pairs};
ghost use Rattle.groups.specs.Sums.{InRange};
ghost use Rattle.groups.specs.declared.fault.GroupFault.TheVariants.{Modulus};
ghost use Rattle.groups.specs.Couples.{pairs_laws};
ghost use Rattle.groups.specs.PairForms.{pair_form_laws};

use crate::blocks::Blocks;
use crate::encoded::{EncodedGroup, ShortGroup};
use crate::fault::GroupFault;
use crate::group::Group;
use crate::sums::Sums;
use std::alloc::AllocError;

// Pairs of elements of two groups, part by part.
#[derive(Copy)]
pub struct Pair<A, B> {
    // The number by which written forms name the pair.
    id: u8,
    modulus: u32,
    first: A,
    second: B,
    ghost named: { (1 ≤ id) × (id ≤ 255) },
}

// `Clone` can't be derived for a type with parameters and a ghost field.
impl<A: Copy, B: Copy> Clone for Pair<A, B> {
    ghost is_clone = { λ pair copy. copy ≡ pair };

    ghost is_infallible = { λ _. ⊤ };

    fn clone(&self) -> Result<Self, AllocError> {
        Ok(*self)
    }
}

impl<A: Copy, B: Copy> Pair<A, B> {
    // Refuses the id 0.
    pub fn new(id: u8, modulus: u32, first: A, second: B) -> Result<Self, GroupFault>
        ensures { MatchResult result (λ g. (1 ≤ id) × (g.id ≡ id) × (g.modulus ≡ modulus) × (g.first ≡ first) × (g.second ≡ second)) (λ e. (id ≡ 0) × (e ≡ Modulus)) }
    {
        if id == 0 {
            return Err(GroupFault::Modulus);
        }
        Ok(Pair {
            id,
            modulus,
            first,
            second,
        })
    }
}

impl<A: Group, B: Group> Group for Pair<A, B> {
    type Element = (A::Element, B::Element);

    const DEAR_NEGATIVES: bool = A::DEAR_NEGATIVES || B::DEAR_NEGATIVES;

    ghost ops = { λ g. pairs (A.Group.ops g.first) (B.Group.ops g.second) };

    ghost laws = { λ s. pairs_laws (A.Group.ops s.first) (B.Group.ops s.second) (A.Group.laws s.first) (B.Group.laws s.second) };

    fn is_valid(&self, a: (A::Element, B::Element)) -> bool {
        self.first.is_valid(a.0) && self.second.is_valid(a.1)
    }

    fn same(&self, a: (A::Element, B::Element), b: (A::Element, B::Element)) -> bool {
        self.first.same(a.0, b.0) && self.second.same(a.1, b.1)
    }

    fn zero(&self) -> (A::Element, B::Element) {
        (self.first.zero(), self.second.zero())
    }

    fn sum(
        &self,
        a: (A::Element, B::Element),
        b: (A::Element, B::Element),
    ) -> (A::Element, B::Element) {
        (self.first.sum(a.0, b.0), self.second.sum(a.1, b.1))
    }

    fn negative(&self, a: (A::Element, B::Element)) -> (A::Element, B::Element) {
        (self.first.negative(a.0), self.second.negative(a.1))
    }
}

// Two blocks as one element.
pub fn long_key() -> Pair<Blocks, Blocks>
    ensures { (result.id ≡ 4) × (result.modulus ≡ 0) }
{
    Pair {
        id: 4,
        modulus: 0,
        first: Blocks,
        second: Blocks,
    }
}

// A block, and beside it a number below the modulus.
pub fn key_with_code(modulus: u32) -> Result<Pair<Blocks, Sums>, GroupFault>
    ensures { MatchResult result (λ g. InRange modulus × (g.id ≡ 5) × (g.modulus ≡ modulus) × (g.second.modulus ≡ modulus)) (λ e. (InRange modulus → ⊥) × (e ≡ Modulus)) }
{
    let second = Sums::new(modulus)?;
    Ok(Pair {
        id: 5,
        modulus,
        first: Blocks,
        second,
    })
}

impl<A: ShortGroup, B: ShortGroup> EncodedGroup for Pair<A, B> {
    ghost form = { λ g. pair_form g.id g.modulus (A.EncodedGroup.form g.first) (B.EncodedGroup.form g.second) };

    ghost encoded = { λ s.
        pair_form_laws (A.Group.ops s.first) (B.Group.ops s.second) (A.EncodedGroup.form s.first) (B.EncodedGroup.form s.second)
        (A.EncodedGroup.encoded s.first) (B.EncodedGroup.encoded s.second) s.id s.modulus s.named
        (A.ShortGroup.short s.first) (B.ShortGroup.short s.second) };

    fn id(&self) -> u8 {
        self.id
    }

    fn modulus(&self) -> u32 {
        self.modulus
    }

    fn width(&self) -> usize {
        self.first.width() + self.second.width()
    }

    fn write(&self, a: (A::Element, B::Element), out: &mut [u8]) -> Result<(), GroupFault> {
        let middle = self.first.width();
        if out.len() != middle + self.second.width() {
            return Err(GroupFault::Encoding);
        }
        self.first.write(a.0, &mut out[0..middle])?;
        self.second.write(a.1, &mut out[middle..])
    }

    fn read(&self, bytes: &[u8]) -> Result<(A::Element, B::Element), GroupFault> {
        let middle = self.first.width();
        if bytes.len() != middle + self.second.width() {
            return Err(GroupFault::Encoding);
        }
        let first = self.first.read(&bytes[0..middle])?;
        let second = self.second.read(&bytes[middle..])?;
        Ok((first, second))
    }
}
