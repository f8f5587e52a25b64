// C calls by one name at each type, and is given plain parameters, a bool and `told`.
ghost use Rattle.std.specs.Prelude.{length, MatchBool};
ghost use Rattle.groups.specs.Blocks.{blocks};
ghost use Rattle.bench.specs.Rounds.{Deposited, Undeposited, Opened, Unopened, SomeFault};

use crate::rounds::{deposit_rounds, open_rounds};
use groups::blocks::Blocks;

// Whether so many deposits were accepted.
#[unsafe(no_mangle)]
pub extern "C" fn bench_blocks_deposit(
    t: u32,
    n: u32,
    rounds: u32,
    key: &[u8; 16],
    coefficients: &[[u8; 16]],
    shares: &mut [[u8; 16]],
    working: &mut [[u8; 16]],
) -> bool
    ensures { MatchBool result (Deposited blocks t n rounds key.now coefficients.now working.old shares.new) (SomeFault (Undeposited blocks t n rounds key.now coefficients.now working.old (length shares.old))) }
{
    deposit_rounds(Blocks, t, n, rounds, *key, coefficients, shares, working).is_ok()
}

// Whether a deposit and so many openings were accepted; `told` is then the key.
#[unsafe(no_mangle)]
pub extern "C" fn bench_blocks_open(
    t: u32,
    n: u32,
    rounds: u32,
    key: &[u8; 16],
    coefficients: &[[u8; 16]],
    helpers: &[u32],
    shares: &mut [[u8; 16]],
    working: &mut [[u8; 16]],
    told: &mut [u8; 16],
) -> bool
    ensures { MatchBool result (Opened blocks t n key.now coefficients.now helpers.now working.old told.new) (SomeFault (Unopened blocks t n key.now coefficients.now helpers.now working.old (length shares.old))) }
{
    let opened = open_rounds(
        Blocks,
        t,
        n,
        rounds,
        *key,
        coefficients,
        helpers,
        shares,
        working,
    );
    let Ok(key) = opened else {
        return false;
    };
    *told = key;
    true
}
