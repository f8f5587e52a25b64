// C calls by one name at each type, and is given plain parameters, a bool and `told`.
ghost use Rattle.std.specs.Prelude.{length, MatchBool};
ghost use Rattle.groups.specs.Sums.{sums, InRange};
ghost use Rattle.bench.specs.Rounds.{Deposited, Undeposited, Opened, Unopened, SomeFault};

use crate::rounds::{deposit_rounds, open_rounds};
use groups::sums::Sums;

// Whether so many deposits were accepted.
#[unsafe(no_mangle)]
pub extern "C" fn bench_sums_deposit(
    t: u32,
    n: u32,
    rounds: u32,
    modulus: u32,
    key: u32,
    coefficients: &[u32],
    shares: &mut [u32],
    working: &mut [u32],
) -> bool
    ensures { MatchBool result (InRange modulus × Deposited (sums modulus) t n rounds key coefficients.now working.old shares.new) (InRange modulus → SomeFault (Undeposited (sums modulus) t n rounds key coefficients.now working.old (length shares.old))) }
{
    let Ok(group) = Sums::new(modulus) else {
        return false;
    };
    deposit_rounds(group, t, n, rounds, key, coefficients, shares, working).is_ok()
}

// Whether a deposit and so many openings were accepted; `told` is then the key.
#[unsafe(no_mangle)]
pub extern "C" fn bench_sums_open(
    t: u32,
    n: u32,
    rounds: u32,
    modulus: u32,
    key: u32,
    coefficients: &[u32],
    helpers: &[u32],
    shares: &mut [u32],
    working: &mut [u32],
    told: &mut u32,
) -> bool
    ensures { MatchBool result (InRange modulus × Opened (sums modulus) t n key coefficients.now helpers.now working.old told.new) (InRange modulus → SomeFault (Unopened (sums modulus) t n key coefficients.now helpers.now working.old (length shares.old))) }
{
    let Ok(group) = Sums::new(modulus) else {
        return false;
    };
    let opened = open_rounds(
        group,
        t,
        n,
        rounds,
        key,
        coefficients,
        helpers,
        shares,
        working,
    );
    let Ok(key) = opened else {
        return false;
    };
    *told = key;
    true
}
