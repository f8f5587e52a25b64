// The laws of every history of a cabinet, as theory: this crate's work is in specs/ and proofs/.
#![tactic(auto)]

ghost use Rattle.std.specs.Prelude.{◌≡◌};
ghost use Rattle.laws.specs.Promises.{OpensToTotal, SharesAsDealt, FewSharesTellNothing};

use groups::group::Group;
use sharing::scheme::Scheme;

// The contract is the laws: of every group, every scheme and every list of requests. The answer says nothing, and is a number
// so that a must-fail edit has something to turn.
pub fn laws_stand<G: Group>(group: &G, scheme: Scheme) -> u8
    ensures opens_to_total { OpensToTotal (G.ops group.now) scheme }
    ensures shares_as_dealt { SharesAsDealt (G.ops group.now) scheme }
    ensures few_shares_tell_nothing { FewSharesTellNothing (G.ops group.now) scheme }
    ensures answer { result ≡ 0 }
{
    0
}
