ghost use Rattle.std.specs.Prelude.{◌≡◌, length, MatchResult};
ghost use Rattle.history.specs.Calls.{dealing, depositing, opening, key_is, answered};
ghost use Rattle.history.specs.Steps.{step};
ghost use Rattle.custody.specs.States.{state_of, SameCabinet};
ghost use Rattle.bench.specs.Rounds.{after, Stopped, Deposited, Undeposited, Opened, Unopened};

use custody::cabinet::Cabinet;
use groups::group::Group;
use sharing::fault::CabinetFault;

// Deposits the same key so many times.
fn deposit_again<G: Group>(
    cabinet: &mut Cabinet<G>,
    rounds: u32,
    key: G::Element,
    coefficients: &[G::Element],
    shares: &mut [G::Element],
    working: &mut [G::Element],
) -> Result<(), CabinetFault>
    ensures same { SameCabinet cabinet.old cabinet.new }
    ensures state { MatchResult result (λ _. after (G.ops cabinet.old.group) cabinet.old.scheme working.old (dealing (depositing key) coefficients.now) rounds (state_of cabinet.old shares.old) ≡ state_of cabinet.new shares.new) (Stopped (G.ops cabinet.old.group) cabinet.old.scheme working.old (dealing (depositing key) coefficients.now) rounds (state_of cabinet.old shares.old)) }
{
    for _done in 0..rounds {
        cabinet.deposit(key, coefficients, shares, working)?;
    }
    Ok(())
}

// Opens so many times, and once at least.
fn open_again<G: Group>(
    cabinet: &Cabinet<G>,
    rounds: u32,
    helpers: &[u32],
    shares: &[G::Element],
    working: &mut [G::Element],
) -> Result<G::Element, CabinetFault>
    ensures { (step (G.ops cabinet.now.group) cabinet.now.scheme (state_of cabinet.now shares.now) working.old (opening helpers.now)).answer ≡ answered key_is result }
{
    let key = cabinet.open(helpers, shares, working)?;
    for _ in 1..rounds {
        cabinet.open(helpers, shares, working)?;
    }
    Ok(key)
}

// Makes a cabinet and deposits the same key so many times.
//
// The parameters are those that C gives, and a struct of them would be built and read once.
pub(crate) fn deposit_rounds<G: Group + Drop>(
    group: G,
    t: u32,
    n: u32,
    rounds: u32,
    key: G::Element,
    coefficients: &[G::Element],
    shares: &mut [G::Element],
    working: &mut [G::Element],
) -> Result<(), CabinetFault>
    ensures { MatchResult result (λ _. Deposited (G.ops group) t n rounds key coefficients.now working.old shares.new) (Undeposited (G.ops group) t n rounds key coefficients.now working.old (length shares.old)) }
{
    let scheme = Cabinet::<G>::check(t, n, shares.len())?;
    let mut cabinet = Cabinet::make(group, scheme, 0, shares);
    deposit_again(&mut cabinet, rounds, key, coefficients, shares, working)
}

// Makes a cabinet, deposits a key once, and opens so many times.
pub(crate) fn open_rounds<G: Group + Drop>(
    group: G,
    t: u32,
    n: u32,
    rounds: u32,
    key: G::Element,
    coefficients: &[G::Element],
    helpers: &[u32],
    shares: &mut [G::Element],
    working: &mut [G::Element],
) -> Result<G::Element, CabinetFault>
    ensures { MatchResult result (Opened (G.ops group) t n key coefficients.now helpers.now working.old) (Unopened (G.ops group) t n key coefficients.now helpers.now working.old (length shares.old)) }
{
    let scheme = Cabinet::<G>::check(t, n, shares.len())?;
    let mut cabinet = Cabinet::make(group, scheme, 0, shares);
    deposit_again(&mut cabinet, 1, key, coefficients, shares, working)?;
    open_again(&cabinet, rounds, helpers, shares, working)
}
