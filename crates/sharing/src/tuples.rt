ghost use Rattle.std.specs.Prelude.{◌≡◌, ℕ, ◌<◌, T, length, slice_index_or};
ghost use Rattle.algebra.specs.Rows.{first_place};
ghost use Rattle.algebra.specs.Tuples.{all_valid, invalid_at, tuple_zero, tuple_plus, tuple_minus};

use groups::group::Group;

// Writes zero everywhere.
pub fn fill_zero<G: Group>(g: &G, to: &mut [G::Element])
    ensures { to.new ≡ tuple_zero (G.ops g.now) (length to.old) }
{
    let zero = g.zero();
    to.fill_with(|| zero);
}

// The place of the first element that is not valid.
pub fn first_invalid<G: Group>(g: &G, xs: &[G::Element]) -> Option<usize>
    ensures { result ≡ first_place (invalid_at (G.ops g.now) xs.now) 0 (length xs.now) }
{
    xs.iter().position(|x| !g.is_valid(*x))
}

// Writes to each place what `f` makes of the place and of the element there.
pub(crate) fn write_each<E: Copy, F: Fn(usize, E) -> E>(to: &mut [E], f: F)
    requires { (i : ℕ) (x : E) → i < length to.old → F.pre f i x }
    ensures { (i : ℕ) (d : E) → i < length to.old → F.post f i (slice_index_or to.old i d) (slice_index_or to.new i d) }
{
    // By index, since after `iter_mut` a proof knows the length and no element.
    for i in 0..to.len() {
        to[i] = f(i, to[i]);
    }
}

// Adds `from` to `to`.
pub(crate) fn add_into<G: Group>(g: &G, to: &mut [G::Element], from: &[G::Element])
    requires { length from.now ≡ length to.old }
    ensures { T (all_valid (G.ops g.now) to.old) → T (all_valid (G.ops g.now) from.now) → to.new ≡ tuple_plus (G.ops g.now) to.old from.now }
{
    write_each(to, |i, x| g.sum(x, from[i]));
}

// Writes the negative of each element of `from` to `to`, and takes one negative in all, that of the
// sum.
//
// Each place first gets the sum of what stands before it in `from`. Then, from the end, the negative
// of the sum up to and with an element is added to what its place has, which leaves its negative.
pub(crate) fn negatives<G: Group>(g: &G, from: &[G::Element], to: &mut [G::Element])
    requires { length from.now ≡ length to.old }
    ensures { T (all_valid (G.ops g.now) from.now) → to.new ≡ tuple_minus (G.ops g.now) from.now }
{
    let mut sum = g.zero();
    for k in 0..from.len() {
        to[k] = sum;
        sum = g.sum(sum, from[k]);
    }
    let mut rest = g.negative(sum);
    for k in (0..from.len()).rev() {
        to[k] = g.sum(to[k], rest);
        rest = g.sum(rest, from[k]);
    }
}
