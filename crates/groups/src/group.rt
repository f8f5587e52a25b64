ghost use Rattle.std.specs.Prelude.{◌≡◌, T};
ghost use Rattle.algebra.specs.Group.{GroupOps, GroupLaws};

// A commutative group on the valid values of `Element`.
//
// `ops` is the group's whole meaning, and `laws` all that is owed of it. Sums and negatives of
// invalid elements stay open: no promise speaks of them.
pub trait Group {
    type Element: Copy;

    // Whether a negative is dear beside a sum. A product then takes one for the whole tuple, and three
    // sums more for each element. It bears on speed alone, and no promise speaks of it.
    const DEAR_NEGATIVES: bool = true;

    ghost ops: { Self → GroupOps Self.Element };

    fn is_valid(&self, a: Self::Element) -> bool
        ensures { result ≡ (ops self.now).valid a };

    // Whether two valid elements are equal.
    fn same(&self, a: Self::Element, b: Self::Element) -> bool
        ensures { T ((ops self.now).valid a) → T ((ops self.now).valid b) → result ≡ (ops self.now).same a b };

    fn zero(&self) -> Self::Element
        ensures { result ≡ (ops self.now).zero };

    fn sum(&self, a: Self::Element, b: Self::Element) -> Self::Element
        ensures { T ((ops self.now).valid a) → T ((ops self.now).valid b) → result ≡ (ops self.now).plus a b };

    fn negative(&self, a: Self::Element) -> Self::Element
        ensures { T ((ops self.now).valid a) → result ≡ (ops self.now).minus a };

    // The first less the second.
    fn difference(&self, a: Self::Element, b: Self::Element) -> Self::Element
        ensures { T ((ops self.now).valid a) → T ((ops self.now).valid b) → result ≡ (ops self.now).plus a ((ops self.now).minus b) }
    {
        self.sum(a, self.negative(b))
    }

    ghost laws: { (g : Self) → GroupLaws (ops g) };
}
