ghost use Rattle.std.specs.Prelude.{◌≡◌, ◌+◌, ◌-◌, ◌*◌, ◌<◌, ◌≤◌, T, ◌++◌, length, MatchResult, OnOk};
ghost use Rattle.algebra.specs.Tuples.{all_valid};
ghost use Rattle.algebra.specs.Rows.{row_at, put_row};
ghost use Rattle.algebra.specs.Dealing.{dealt, tuple_at};
ghost use Rattle.sharing.specs.Verdicts.{first, verdict};
ghost use Rattle.sharing.specs.Shares.{changed, length_rows, dealing_rows, tuple_rows, Interpolated};

use crate::dealing::{change_share, interpolate};
use crate::fault::CabinetFault;
use crate::helpers::{Helpers, check_holder};
use crate::lengths::check_count;
use crate::scheme::Scheme;
use groups::group::Group;

// Whether what is dealt is added to a share or taken from it.
//
// An enum and no closure, since what a dealing promises says which of the two was done.
#[derive(Clone, Copy)]
pub enum Change {
    Add,
    Subtract,
}

// Refuses share memory and scratch memory of wrong lengths.
fn check_lengths(scheme: Scheme, shares: usize, scratch: usize) -> Result<(), CabinetFault>
    ensures { result ≡ verdict (first (length_rows scheme shares scratch)) }
{
    let full = scheme.share_length();
    check_count(CabinetFault::MemoryLength(full), full, shares)?;
    let room = 3 * scheme.width();
    check_count(CabinetFault::MemoryLength(room), room, scratch)
}

// Refuses a wrong number of coefficients, and a holder that the scheme does not have.
fn check_dealing(scheme: Scheme, coefficients: usize, holder: u32) -> Result<(), CabinetFault>
    ensures { result ≡ verdict (first (dealing_rows scheme coefficients holder)) }
{
    let count = scheme.coefficient_count();
    check_count(CabinetFault::CoefficientCount(count), count, coefficients)?;
    check_holder(scheme, holder)
}

// Refuses a tuple of a wrong length, and a list that is not of t different holders of the scheme.
fn check_tuple<'a>(
    scheme: Scheme,
    out: usize,
    helpers: &'a [u32],
) -> Result<Helpers<'a>, CabinetFault>
    ensures { MatchResult result (λ h. (h.scheme ≡ scheme) × (h.list.now ≡ helpers.now) × (first (tuple_rows scheme out helpers.now) ≡ None)) (λ e. first (tuple_rows scheme out helpers.now) ≡ Some e) }
{
    let width = scheme.width();
    check_count(CabinetFault::MemoryLength(width), width, out)?;
    Helpers::new(scheme, helpers)
}

// Adds to the row h of the share memory what its holder is dealt, or takes that from it, and leaves
// the other rows.
fn deal_row<G: Group>(
    group: &G,
    scheme: Scheme,
    change: Change,
    h: usize,
    key: G::Element,
    coefficients: &[G::Element],
    shares: &mut [G::Element],
    scratch: &mut [G::Element],
)
    requires known { h < scheme.n }
    requires full { length shares.old ≡ scheme.n * (scheme.q - 1) }
    requires room { length scratch.old ≡ 3 * (scheme.q - 1) }
    requires count { length coefficients.now ≡ (scheme.t - 1) * (scheme.q - 1) }
    ensures { T (all_valid (G.ops group.now) shares.old) → T ((G.ops group.now).valid key) → T (all_valid (G.ops group.now) coefficients.now) → shares.new ≡ put_row (scheme.q - 1) h (changed (G.ops group.now) change (row_at (scheme.q - 1) h shares.old) (dealt (G.ops group.now) (scheme.q - 1) (h + 1) key (scheme.t - 1) coefficients.now)) shares.old }
{
    let width = scheme.width();
    let start = h * width;
    let share = &mut shares[start..start + width];
    change_share(
        group,
        scheme,
        change,
        h + 1,
        key,
        coefficients,
        share,
        scratch,
    );
}

// Adds to a holder's share what dealing the key with these coefficients gives that holder, or takes
// that from it.
//
// Refuses memory of wrong lengths, a wrong number of coefficients, and a holder that the scheme
// does not have; a refusal changes nothing. What the scratch memory holds after is left open, and
// of invalid elements nothing is promised.
pub fn deal_to<G: Group>(
    group: &G,
    scheme: Scheme,
    change: Change,
    holder: u32,
    key: G::Element,
    coefficients: &[G::Element],
    shares: &mut [G::Element],
    scratch: &mut [G::Element],
) -> Result<(), CabinetFault>
    ensures verdict { result ≡ verdict (first (length_rows scheme (length shares.old) (length scratch.old) ++ dealing_rows scheme (length coefficients.now) holder)) }
    ensures share { MatchResult result (λ _. T (all_valid (G.ops group.now) shares.old) → T ((G.ops group.now).valid key) → T (all_valid (G.ops group.now) coefficients.now) → shares.new ≡ put_row (scheme.q - 1) (holder - 1) (changed (G.ops group.now) change (row_at (scheme.q - 1) (holder - 1) shares.old) (dealt (G.ops group.now) (scheme.q - 1) holder key (scheme.t - 1) coefficients.now)) shares.old) (λ _. (shares.new ≡ shares.old) × (scratch.new ≡ scratch.old)) }
{
    check_lengths(scheme, shares.len(), scratch.len())?;
    check_dealing(scheme, coefficients.len(), holder)?;
    let h = holder as usize - 1;
    deal_row(group, scheme, change, h, key, coefficients, shares, scratch);
    Ok(())
}

// Writes the tuple that t helpers' shares give at a point to `out`.
//
// Refuses memory of wrong lengths and a list that is not of t different holders of the scheme; a
// refusal changes nothing. What the scratch memory holds after is left open, and of invalid
// elements nothing is promised.
pub fn tuple_at<G: Group>(
    group: &G,
    scheme: Scheme,
    helpers: &[u32],
    point: usize,
    shares: &[G::Element],
    out: &mut [G::Element],
    scratch: &mut [G::Element],
) -> Result<(), CabinetFault>
    ensures verdict { result ≡ verdict (first (length_rows scheme (length shares.now) (length scratch.old) ++ tuple_rows scheme (length out.old) helpers.now)) }
    ensures tuple { MatchResult result (λ _. T (all_valid (G.ops group.now) shares.now) → out.new ≡ tuple_at (G.ops group.now) scheme.q helpers.now point shares.now) (λ _. (out.new ≡ out.old) × (scratch.new ≡ scratch.old)) }
    ensures interpolates { OnOk result (T (all_valid (G.ops group.now) shares.now) → Interpolated (G.ops group.now) scheme helpers.now point shares.now out.new) }
{
    check_lengths(scheme, shares.len(), scratch.len())?;
    let helpers = check_tuple(scheme, out.len(), helpers)?;
    interpolate(group, helpers, point, shares, out, scratch);
    Ok(())
}
