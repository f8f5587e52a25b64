ghost use Rattle.std.specs.Prelude.{◌≡◌, ◌-◌, ◌*◌, length, MatchResult};
ghost use Rattle.algebra.specs.Tuples.{tuple_zero};
ghost use Rattle.history.specs.Ledgers.{fresh};
ghost use Rattle.laws.specs.Promises.{OpensToTotal, SharesAsDealt, FewSharesTellNothing};
ghost use Rattle.custody.specs.Making.{Unmade};

use crate::cabinet::Cabinet;
use groups::group::Group;
use history::ledger::Ledger;
use sharing::fault::CabinetFault;
use sharing::lengths::check_count;
use sharing::scheme::Scheme;
use sharing::tuples::fill_zero;

impl<G: Group> Cabinet<G> {
    // Whether a cabinet can be made: refuses t and n that are no scheme, and share memory of a
    // wrong length.
    pub fn check(t: u32, n: u32, shares: usize) -> Result<Scheme, CabinetFault>
        ensures { MatchResult result (λ s. (s.t ≡ t) × (s.n ≡ n) × (shares ≡ s.n * (s.q - 1))) (Unmade t n shares) }
    {
        let scheme = Scheme::new(t, n)?;
        let full = scheme.share_length();
        check_count(CabinetFault::MemoryLength(full), full, shares)?;
        Ok(scheme)
    }

    // A cabinet whose key is zero: every share zeros, every holder present, epoch 0.
    //
    // The last three clauses are the laws of every list of calls that may follow, accepted or
    // refused, each given this share memory.
    //
    // It cannot refuse. All the memory lent is set to zero; where its length was not checked and is
    // wrong, later calls refuse it.
    pub fn make(group: G, scheme: Scheme, number: u32, shares: &mut [G::Element]) -> Self
        ensures cabinet { (result.group ≡ group) × (result.scheme ≡ scheme) × (result.number ≡ number) × (result.ledger ≡ fresh) }
        ensures shares { shares.new ≡ tuple_zero (G.ops group) (length shares.old) }
        ensures opens_to_total { OpensToTotal (G.ops group) scheme }
        ensures shares_as_dealt { SharesAsDealt (G.ops group) scheme }
        ensures few_shares_tell_nothing { FewSharesTellNothing (G.ops group) scheme }
    {
        fill_zero(&group, shares);
        Cabinet {
            group,
            scheme,
            number,
            ledger: Ledger::new(),
        }
    }
}
