ghost use Rattle.std.specs.Prelude.{◌≡◌, IfOk};
ghost use Rattle.console.specs.Seats.{kept_of, New};
ghost use Rattle.console.specs.Requests.{called, Replied};

use crate::request::Call;
use custody::cabinet::Cabinet;
use groups::group::Group;
use sharing::fault::CabinetFault;
use sharing::scheme::Scheme;
use std::alloc::{AllocError, Global};

// A cabinet over numbers, and the memory that it is lent.
#[derive(Drop)]
pub struct Seat<G> {
    cabinet: Cabinet<G>,
    shares: Vec<u32>,
    working: Vec<u32>,
}

impl<G: Group<Element = u32>> Seat<G> {
    // A new cabinet with the number 0, in memory of its own.
    pub fn make(heap: Global, group: G, scheme: Scheme) -> Result<Self, AllocError>
    where
        G: Drop,
        ensures { IfOk result (λ s. New (λ g. G.ops g) group scheme (kept_of s)) }
    {
        let mut shares = vec![in heap; 0u32; scheme.share_length()]?;
        let working = vec![in heap; 0u32; scheme.working_length()]?;
        let cabinet = Cabinet::make(group, scheme, 0, &mut shares);
        Ok(Seat {
            cabinet,
            shares,
            working,
        })
    }

    // Makes a call on the cabinet, in its own memory.
    pub(crate) fn obey(&mut self, call: Call) -> Result<u32, CabinetFault>
        ensures { Replied (λ g. G.ops g) (kept_of self.old) (called call.entry) result (kept_of self.new) }
    {
        let Seat {
            cabinet,
            shares,
            working,
        } = self;
        match call {
            Call::Deposit { key, coefficients } => cabinet.deposit(
                key,
                coefficients,
                shares,
                working,
            ),
            Call::Withdraw { key, coefficients } => cabinet.withdraw(
                key,
                coefficients,
                shares,
                working,
            ),
            Call::Refresh { coefficients } => cabinet.refresh(coefficients, shares, working),
            Call::Revoke { holder } => cabinet.revoke(holder, shares),
            Call::Repair { holder, helpers } => cabinet.repair(holder, helpers, shares, working),
            Call::Open { helpers } => cabinet.open(helpers, shares, working),
        }
    }
}
