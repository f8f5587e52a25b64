// The mathematics behind the shares, as theory: this crate's work is in specs/ and proofs/.
#![tactic(auto)]

ghost use Rattle.std.specs.Prelude.{◌≡◌};
ghost use Rattle.algebra.specs.Theorems.{Stands};

// Sharing over any module with the cycle law: units, interpolation and covers. The contract is the theorem. The answer says
// nothing, and is a number so that a must-fail edit has something to turn.
pub fn sharing_stands<M>() -> u8
    ensures theorem { Stands M }
    ensures answer { result ≡ 0 }
{
    0
}
