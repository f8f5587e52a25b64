ghost use Rattle.std.specs.Prelude.{◌≡◌, ◌-◌, ◌*◌, ◌<◌, ◌≤◌, MatchBool, MatchResult};
ghost use Rattle.algebra.specs.Primes.{OddPrime, NoneBetween, LeastOddPrime};
ghost use Rattle.sharing.specs.Schemes.{Allowed};
ghost use Rattle.sharing.specs.declared.fault.CabinetFault.TheVariants.{Scheme as NoScheme};

use crate::fault::CabinetFault;

// t of n holders open a key, and the tuples have q - 1 elements.
#[derive(Clone, Copy)]
pub struct Scheme {
    pub t: usize,
    pub n: usize,
    pub q: usize,
    ghost allowed: { Allowed t n },
    ghost above: { n < q },
    ghost prime: { OddPrime q },
    ghost least: { NoneBetween n q },
    ghost small: { q ≤ 31 },
}

impl Scheme {
    // Refuses t < 2, t > n and n > 30.
    pub fn new(t: u32, n: u32) -> Result<Self, CabinetFault>
        ensures { MatchResult result (λ s. (s.t ≡ t) × (s.n ≡ n)) (λ e. (Allowed t n → ⊥) × (e ≡ NoScheme)) }
    {
        if t < 2 || t > n || n > 30 {
            return Err(CabinetFault::Scheme);
        }
        let n = n as usize;
        let q = least_odd_prime(n);
        Ok(Scheme {
            t: t as usize,
            n,
            q,
        })
    }

    // The number of elements of a tuple.
    pub fn width(self) -> usize
        ensures { result ≡ self.q - 1 }
    {
        self.q - 1
    }

    // The number of elements of the share memory: a tuple for each holder.
    pub fn share_length(self) -> usize
        ensures { result ≡ self.n * (self.q - 1) }
    {
        self.n * self.width()
    }

    // The number of elements of the working memory: four tuples.
    pub fn working_length(self) -> usize
        ensures { result ≡ 4 * (self.q - 1) }
    {
        4 * self.width()
    }

    // The number of elements of a dealer's coefficients: a tuple for each power from 1 to t - 1.
    pub fn coefficient_count(self) -> usize
        ensures { result ≡ (self.t - 1) * (self.q - 1) }
    {
        (self.t - 1) * self.width()
    }
}

fn is_odd_prime(m: usize) -> bool
    ensures { MatchBool result (OddPrime m) (OddPrime m → ⊥) }
{
    if m < 2 || m % 2 == 0 {
        return false;
    }
    (2..m).all(|d| m % d != 0)
}

// The least odd prime above n, which 31 bounds.
fn least_odd_prime(n: usize) -> usize
    requires { n ≤ 30 }
    ensures least { LeastOddPrime n result }
    ensures small { result ≤ 31 }
{
    (n + 1..31).find(|m| is_odd_prime(*m)).unwrap_or(31)
}
