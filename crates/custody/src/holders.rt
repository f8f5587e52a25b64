ghost use Rattle.std.specs.Prelude.{◌≡◌, ◌+◌, ◌-◌, ◌*◌, ◌≤◌, []};
ghost use Rattle.sharing.specs.Verdicts.{verdict};
ghost use Rattle.history.specs.Calls.{revoking, repairing, holder_is, answered};
ghost use Rattle.history.specs.Rules.{fault};
ghost use Rattle.history.specs.Steps.{step};
ghost use Rattle.custody.specs.States.{state_of, SameCabinet};
ghost use Rattle.custody.specs.Holders.{Known, Recorded};

use crate::cabinet::Cabinet;
use groups::group::Group;
use history::ledger::Holder;
use sharing::fault::CabinetFault;
use sharing::helpers::check_holder;
use sharing::shares::tuple_at;
use sharing::tuples::fill_zero;
use std::ops::Range;

impl<G: Group> Cabinet<G> {
    // Refuses a revocation for the first row that applies.
    fn check_revoking(&self, holder: u32, shares: &[G::Element]) -> Result<(), CabinetFault>
        ensures { result ≡ verdict (fault (G.ops self.now.group) self.now.scheme (state_of self.now shares.now) 0 (revoking holder)) }
    {
        self.check_length(shares)?;
        self.check_valid(shares)?;
        self.check_change(true, holder)
    }

    // Refuses a repair for the first row that applies.
    fn check_repairing(
        &self,
        holder: u32,
        helpers: &[u32],
        shares: &[G::Element],
        working: usize,
    ) -> Result<(), CabinetFault>
        ensures { result ≡ verdict (fault (G.ops self.now.group) self.now.scheme (state_of self.now shares.now) working (repairing holder helpers.now)) }
    {
        self.check_memory(shares, working)?;
        self.check_change(false, holder)?;
        self.check_list(helpers)
    }

    // Where a holder's row stands in the share memory.
    fn row(&self, holder: u32) -> Range<usize>
        requires { Known self.now.scheme holder }
        ensures start { result.start ≡ (holder - 1) * (self.now.scheme.q - 1) }
        ensures end { result.end ≡ result.start + (self.now.scheme.q - 1) }
        ensures within { result.end ≤ self.now.scheme.n * (self.now.scheme.q - 1) }
    {
        let width = self.scheme.width();
        let start = (holder as usize - 1) * width;
        start..start + width
    }

    // Makes a holder that is present a missing one: its share becomes zeros.
    //
    // Answers the holder.
    pub fn revoke(&mut self, holder: u32, shares: &mut [G::Element]) -> Result<u32, CabinetFault>
        ensures step { step (G.ops self.old.group) self.old.scheme (state_of self.old shares.old) [] (revoking holder) ≡ record { answer = answered holder_is result; state = state_of self.new shares.new; working = [] } }
        ensures same { SameCabinet self.old self.new }
    {
        self.check_revoking(holder, shares)?;
        let row = self.row(holder);
        fill_zero(&self.group, &mut shares[row]);
        self.ledger.mark(holder, false);
        Ok(holder)
    }

    // Makes a holder that is missing a present one: its share becomes the tuple that t helpers'
    // shares give at its number.
    //
    // Answers the holder.
    pub fn repair(
        &mut self,
        holder: u32,
        helpers: &[u32],
        shares: &mut [G::Element],
        working: &mut [G::Element],
    ) -> Result<u32, CabinetFault>
        ensures step { step (G.ops self.old.group) self.old.scheme (state_of self.old shares.old) working.old (repairing holder helpers.now) ≡ record { answer = answered holder_is result; state = state_of self.new shares.new; working = working.new } }
        ensures same { SameCabinet self.old self.new }
    {
        self.check_repairing(holder, helpers, shares, working.len())?;
        let point = holder as usize;
        let width = self.scheme.width();
        let (tuple, scratch) = working.split_at_mut(width);
        tuple_at(
            &self.group,
            self.scheme,
            helpers,
            point,
            shares,
            tuple,
            scratch,
        )?;
        let row = self.row(holder);
        shares[row].copy_from_slice(tuple);
        fill_zero(&self.group, working);
        self.ledger.mark(holder, true);
        Ok(holder)
    }

    // What is recorded of a holder.
    pub fn holder(&self, number: u32) -> Result<Holder, CabinetFault>
        ensures { Recorded self.now.scheme self.now.ledger number result }
    {
        check_holder(self.scheme, number)?;
        Ok(self.ledger.holders[number as usize - 1])
    }
}
