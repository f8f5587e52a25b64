ghost use Rattle.std.specs.Prelude.{◌≡◌, ℕ, ◌<◌, ◌≤◌, length, slice_index, MatchResult};
ghost use Rattle.algebra.specs.Rows.{first_place};
ghost use Rattle.sharing.specs.Verdicts.{first, verdict};
ghost use Rattle.sharing.specs.Helpers.{unknown_at, repeated_at, helper_rows};
ghost use Rattle.sharing.specs.Shares.{holder_row};

use crate::fault::CabinetFault;
use crate::scheme::Scheme;

// The first position of a number that is none of 1 to n.
fn first_unknown(n: usize, helpers: &[u32]) -> Option<usize>
    ensures { result ≡ first_place (unknown_at n helpers.now) 0 (length helpers.now) }
{
    helpers
        .iter()
        .position(|number| *number < 1 || *number as usize > n)
}

// Whether the number at position i stands at an earlier one too.
fn is_repeated(helpers: &[u32], i: usize) -> bool
    requires { i < length helpers.now }
    ensures { result ≡ repeated_at helpers.now i }
{
    helpers[..i].contains(&helpers[i])
}

// The first position of a number that stands at an earlier one too.
fn first_repeated(helpers: &[u32]) -> Option<usize>
    ensures { result ≡ first_place (repeated_at helpers.now) 0 (length helpers.now) }
{
    (0..helpers.len()).find(|i| is_repeated(helpers, *i))
}

// A list of holders of a scheme.
#[derive(Clone, Copy)]
pub(crate) struct Helpers<'a> {
    pub scheme: Scheme,
    pub list: &'a [u32],
    ghost known: { (i : ℕ) → i < length list.now → (1 ≤ slice_index list.now i) × (slice_index list.now i ≤ scheme.n) },
}

impl<'a> Helpers<'a> {
    // Refuses a list that is not of t different holders of the scheme.
    pub(crate) fn new(scheme: Scheme, list: &'a [u32]) -> Result<Self, CabinetFault>
        ensures { MatchResult result (λ h. (h.scheme ≡ scheme) × (h.list.now ≡ list.now) × (first (helper_rows scheme list.now) ≡ None)) (λ e. first (helper_rows scheme list.now) ≡ Some e) }
    {
        if list.len() != scheme.t {
            return Err(CabinetFault::HelperCount(list.len()));
        }
        if let Some(i) = first_unknown(scheme.n, list) {
            return Err(CabinetFault::UnknownHelper(i));
        }
        if let Some(i) = first_repeated(list) {
            return Err(CabinetFault::RepeatedHelper(i));
        }
        Ok(Helpers { scheme, list })
    }
}

// Refuses a list that is not of t different holders of the scheme.
pub fn check_helpers(scheme: Scheme, helpers: &[u32]) -> Result<(), CabinetFault>
    ensures { result ≡ verdict (first (helper_rows scheme helpers.now)) }
{
    Helpers::new(scheme, helpers)?;
    Ok(())
}

// Refuses a single holder that the scheme does not have.
pub fn check_holder(scheme: Scheme, holder: u32) -> Result<(), CabinetFault>
    ensures { result ≡ verdict (holder_row scheme holder) }
{
    if holder < 1 || holder as usize > scheme.n {
        return Err(CabinetFault::UnknownHolder);
    }
    Ok(())
}
