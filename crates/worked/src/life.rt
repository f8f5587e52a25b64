// A cabinet from its making to an opening.
ghost use Rattle.std.specs.Prelude.{◌≡◌, ◌-◌, ◌*◌, length, IfOk};

use custody::cabinet::Cabinet;
use groups::group::Group;
use sharing::fault::CabinetFault;
use sharing::scheme::Scheme;

// Makes a cabinet, deposits a key, refreshes, revokes a holder and repairs it, withdraws a key, and
// opens: the key that is returned is the one deposited less the one withdrawn.
//
// This follows from the contracts of the calls and from the law that openings return the total.
pub fn lifetime<G: Group + Drop>(
    group: G,
    scheme: Scheme,
    deposited: G::Element,
    withdrawn: G::Element,
    coefficients: &[G::Element],
    revoked: u32,
    helpers: &[u32],
    shares: &mut [G::Element],
    working: &mut [G::Element],
) -> Result<G::Element, CabinetFault>
    ensures { length shares.old ≡ scheme.n * (scheme.q - 1) → IfOk result (λ k. k ≡ (G.ops group).plus ((G.ops group).plus (G.ops group).zero deposited) ((G.ops group).minus withdrawn)) }
{
    let mut cabinet = Cabinet::make(group, scheme, 0, shares);
    cabinet.deposit(deposited, coefficients, shares, working)?;
    cabinet.refresh(coefficients, shares, working)?;
    cabinet.revoke(revoked, shares)?;
    cabinet.repair(revoked, helpers, shares, working)?;
    cabinet.withdraw(withdrawn, coefficients, shares, working)?;
    cabinet.open(helpers, shares, working)
}
