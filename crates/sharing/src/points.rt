ghost use Rattle.std.specs.Prelude.{◌≡◌, ◌+◌, ◌-◌, ◌*◌, ◌%◌, ◌<◌, ◌≤◌, true, T, List, length, slice_index_or};
ghost use Rattle.algebra.specs.Circle.{ahead, Quotient};
ghost use Rattle.algebra.specs.Dealing.{weight_at};
ghost use Rattle.algebra.specs.Scalars.{act, point};
ghost use Rattle.algebra.specs.Tuples.{all_valid, ok, tuple_plus, tuple_minus, list_ops};
ghost use Rattle.sharing.specs.Shares.{changed_element, changed};

use crate::helpers::Helpers;
use crate::scheme::Scheme;
use crate::shares::Change;
use crate::tuples::{add_into, negatives, write_each};
use groups::group::Group;

// The place d on from i, on a circle of q places.
fn onward(q: usize, i: usize, d: usize) -> usize
    requires place { i < q }
    requires way { d < q }
    ensures { result ≡ (i + d) % q }
{
    let rest = q - d;
    if i < rest { i + d } else { i - rest }
}

// The way from the place i on to the place j, on a circle of q places.
fn way(q: usize, i: usize, j: usize) -> usize
    requires from { i < q }
    requires to { j < q }
    ensures { result ≡ ahead q i j }
{
    if j < i { q - i + j } else { j - i }
}

// What stands at the place i, where one zero stands after `m`.
fn place<G: Group>(g: &G, m: &[G::Element], i: usize) -> G::Element
    ensures { result ≡ slice_index_or m.now i (G.ops g.now).zero }
{
    m.get(i).copied().unwrap_or(g.zero())
}

// What stands i places before s on the circle of q places.
fn behind<G: Group>(g: &G, q: usize, m: &[G::Element], s: usize, i: usize) -> G::Element
    requires m { length m.now ≡ q - 1 }
    requires s { s < q - 1 }
    requires some { 1 ≤ i }
    requires below { i < q }
    ensures { result ≡ slice_index_or m.now ((s + (q - i)) % q) (G.ops g.now).zero }
{
    if s < i {
        place(g, m, s + (q - i))
    } else {
        m[s - i]
    }
}

// What comes in less what goes out; where negatives are dear, by the `negative` of what goes out.
fn more_less<G: Group>(
    g: &G,
    dear: bool,
    more: G::Element,
    less: G::Element,
    negative: G::Element,
) -> G::Element
    ensures { T ((G.ops g.now).valid more) → T ((G.ops g.now).valid less) → (dear ≡ true → negative ≡ (G.ops g.now).minus less) → result ≡ (G.ops g.now).plus more ((G.ops g.now).minus less) }
{
    if dear {
        return g.sum(more, negative);
    }
    g.difference(more, less)
}

// Writes to `out` the tuple that times 1 - x^d is x^a - x^d times `m` on a circle of q places, where
// there is one; a and `come` make a whole turn.
//
// It walks around in steps of d from the zero's place: each step adds what comes in and takes away
// what stood there before, so that a sum of many powers of x costs one pass. Where negatives are dear,
// `minus` takes those of `m` first, so that the walk needs none.
fn mul_quotient<G: Group>(
    g: &G,
    scheme: Scheme,
    d: usize,
    come: usize,
    m: &[G::Element],
    out: &mut [G::Element],
    minus: &mut [G::Element],
)
    requires some { 0 < d }
    requires d { d < scheme.q }
    requires come { come < scheme.q }
    requires m { length m.now ≡ scheme.q - 1 }
    requires out { length out.old ≡ scheme.q - 1 }
    requires minus { length minus.old ≡ scheme.q - 1 }
    ensures { T (all_valid (G.ops g.now) m.now) → (r : List G.Element) → T (ok (G.ops g.now) (scheme.q - 1) r) → Quotient (G.ops g.now) scheme.q d come (scheme.q - d) m.now r → out.new ≡ r }
{
    let dear = G::DEAR_NEGATIVES;
    if dear {
        negatives(g, m, minus);
    }
    let mut to = scheme.q - 1;
    let mut less = g.zero();
    let mut negative = g.zero();
    let mut sum = g.zero();
    // The proof alone reads how many steps are done.
    for done in 0..m.len() {
        to = onward(scheme.q, to, d);
        let more = place(g, m, onward(scheme.q, to, come));
        sum = g.sum(sum, more_less(g, dear, more, less, negative));
        less = m[to];
        if dear {
            negative = minus[to];
        }
        out[to] = sum;
    }
}

// `b` added to `a`, or taken from it.
pub(crate) fn change_element<G: Group>(
    g: &G,
    change: Change,
    a: G::Element,
    b: G::Element,
) -> G::Element
    ensures { T ((G.ops g.now).valid a) → T ((G.ops g.now).valid b) → result ≡ changed_element (G.ops g.now) change a b }
{
    match change {
        Change::Add => g.sum(a, b),
        Change::Subtract => g.difference(a, b),
    }
}

// Adds `from` to `to`, or takes it from `to`.
fn change_into<G: Group>(g: &G, change: Change, from: &[G::Element], to: &mut [G::Element])
    requires { length from.now ≡ length to.old }
    ensures { T (all_valid (G.ops g.now) from.now) → T (all_valid (G.ops g.now) to.old) → to.new ≡ changed (G.ops g.now) change to.old from.now }
{
    write_each(to, |s, x| change_element(g, change, x, from[s]));
}

// What stands at s less what stands i places behind; where negatives are dear, by those in `minus`.
fn less_behind<G: Group>(
    g: &G,
    scheme: Scheme,
    dear: bool,
    m: &[G::Element],
    minus: &[G::Element],
    s: usize,
    i: usize,
) -> G::Element
    requires m { length m.now ≡ scheme.q - 1 }
    requires minus { length minus.now ≡ scheme.q - 1 }
    requires s { s < scheme.q - 1 }
    requires some { 1 ≤ i }
    requires below { i < scheme.q }
    ensures { T (all_valid (G.ops g.now) m.now) → (dear ≡ true → minus.now ≡ tuple_minus (G.ops g.now) m.now) → result ≡ (G.ops g.now).plus (slice_index_or m.now s (G.ops g.now).zero) ((G.ops g.now).minus (slice_index_or m.now ((s + (scheme.q - i)) % scheme.q) (G.ops g.now).zero)) }
{
    if dear {
        return g.sum(m[s], behind(g, scheme.q, minus, s, i));
    }
    g.difference(m[s], behind(g, scheme.q, m, s, i))
}

// Adds the point i times `m` to `to`, or takes it from `to`. The point 1 is one, so there it is `m`
// itself. Where negatives are dear, `minus` takes those of `m` first, so that the product needs no
// other; taking it away needs one for each place.
pub(crate) fn change_point<G: Group>(
    g: &G,
    scheme: Scheme,
    change: Change,
    i: usize,
    m: &[G::Element],
    to: &mut [G::Element],
    minus: &mut [G::Element],
)
    requires some { 1 ≤ i }
    requires below { i < scheme.q }
    requires m { length m.now ≡ scheme.q - 1 }
    requires to { length to.old ≡ scheme.q - 1 }
    requires minus { length minus.old ≡ scheme.q - 1 }
    ensures { T (all_valid (G.ops g.now) m.now) → T (all_valid (G.ops g.now) to.old) → to.new ≡ changed (G.ops g.now) change to.old (act (list_ops (G.ops g.now) (scheme.q - 1)) (point i) m.now) }
{
    if i == 1 {
        change_into(g, change, m, to);
        return;
    }
    let dear = G::DEAR_NEGATIVES;
    if dear {
        negatives(g, m, minus);
    }
    let mut sum = g.zero();
    // By index, since after `iter_mut` a proof knows the length and no element.
    for s in 0..m.len() {
        sum = g.sum(sum, less_behind(g, scheme, dear, m, minus, s, i));
        to[s] = change_element(g, change, to[s], sum);
    }
}

// Adds the weight of j among the helpers at the point p times `m` to `out`, by way of three tuples of
// `scratch`, of which two take turns so that no product is copied.
pub(crate) fn add_weighted<G: Group>(
    g: &G,
    helpers: Helpers,
    p: usize,
    j: usize,
    m: &[G::Element],
    out: &mut [G::Element],
    scratch: &mut [G::Element],
)
    requires p { p < helpers.scheme.q }
    requires j { j < helpers.scheme.q }
    requires m { length m.now ≡ helpers.scheme.q - 1 }
    requires out { length out.old ≡ helpers.scheme.q - 1 }
    requires room { length scratch.old ≡ 3 * (helpers.scheme.q - 1) }
    ensures { T (all_valid (G.ops g.now) m.now) → T (all_valid (G.ops g.now) out.old) → out.new ≡ tuple_plus (G.ops g.now) out.old (act (list_ops (G.ops g.now) (helpers.entry.scheme.q - 1)) (weight_at helpers.entry.scheme.q helpers.entry.list.now p j) m.now) }
{
    let scheme = helpers.scheme;
    let come = way(scheme.q, p, j);
    let (mut from, rest) = scratch.split_at_mut(scheme.q - 1);
    let (mut to, minus) = rest.split_at_mut(scheme.q - 1);
    from.copy_from_slice(m);
    for k in helpers.list.iter().rev() {
        let k = *k as usize;
        if k != j {
            mul_quotient(g, scheme, way(scheme.q, j, k), come, from, to, minus);
            (from, to) = (to, from);
        }
    }
    add_into(g, out, from);
}
