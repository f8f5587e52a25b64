ghost use Rattle.std.specs.Prelude.{◌≡◌, ◌-◌, ◌*◌, ◌<◌, ◌≤◌, T, length};
ghost use Rattle.algebra.specs.Dealing.{dealt, tuple_at};
ghost use Rattle.algebra.specs.Tuples.{all_valid};
ghost use Rattle.sharing.specs.Shares.{changed};

use crate::helpers::Helpers;
use crate::points::{add_weighted, change_element, change_point};
use crate::scheme::Scheme;
use crate::shares::Change;
use crate::tuples::fill_zero;
use groups::group::Group;

// Adds what the holder i is dealt of the key to a share, or takes it from the share, by way of three
// tuples of `scratch`, of which two take turns so that no value is copied.
pub(crate) fn change_share<G: Group>(
    g: &G,
    scheme: Scheme,
    change: Change,
    i: usize,
    key: G::Element,
    coefficients: &[G::Element],
    share: &mut [G::Element],
    scratch: &mut [G::Element],
)
    requires some { 1 ≤ i }
    requires below { i < scheme.q }
    requires full { length coefficients.now ≡ (scheme.t - 1) * (scheme.q - 1) }
    requires share { length share.old ≡ scheme.q - 1 }
    requires room { length scratch.old ≡ 3 * (scheme.q - 1) }
    ensures { T ((G.ops g.now).valid key) → T (all_valid (G.ops g.now) coefficients.now) → T (all_valid (G.ops g.now) share.old) → share.new ≡ changed (G.ops g.now) change share.old (dealt (G.ops g.now) (scheme.q - 1) i key (scheme.t - 1) coefficients.now) }
{
    let width = scheme.width();
    let (rows, last) = coefficients.split_at(coefficients.len() - width);
    let (mut value, rest) = scratch.split_at_mut(width);
    let (mut next, minus) = rest.split_at_mut(width);
    value.copy_from_slice(last);
    for row in rows.rchunks_exact(width) {
        next.copy_from_slice(row);
        change_point(g, scheme, Change::Add, i, value, next, minus);
        (value, next) = (next, value);
    }
    change_point(g, scheme, change, i, value, share, minus);
    share[0] = change_element(g, change, share[0], key);
}

// Writes the tuple that the helpers' shares give at the point p to `out`, by way of `scratch`.
pub(crate) fn interpolate<G: Group>(
    g: &G,
    helpers: Helpers,
    p: usize,
    shares: &[G::Element],
    out: &mut [G::Element],
    scratch: &mut [G::Element],
)
    requires full { length shares.now ≡ helpers.scheme.n * (helpers.scheme.q - 1) }
    requires out { length out.old ≡ helpers.scheme.q - 1 }
    requires room { length scratch.old ≡ 3 * (helpers.scheme.q - 1) }
    ensures { T (all_valid (G.ops g.now) shares.now) → out.new ≡ tuple_at (G.ops g.now) helpers.entry.scheme.q helpers.entry.list.now p shares.now }
{
    let width = helpers.scheme.width();
    let turned = p % helpers.scheme.q;
    fill_zero(g, out);
    for j in helpers.list.iter().rev() {
        let j = *j as usize;
        let a = (j - 1) * width;
        let share = &shares[a..a + width];
        add_weighted(g, helpers, turned, j, share, out, scratch);
    }
}
