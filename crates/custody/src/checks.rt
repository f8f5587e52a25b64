ghost use Rattle.std.specs.Prelude.{◌≡◌, ◌-◌, ◌*◌, length};
ghost use Rattle.algebra.specs.Rows.{first_place};
ghost use Rattle.sharing.specs.declared.fault.CabinetFault.TheVariants.{MemoryLength};
ghost use Rattle.sharing.specs.Verdicts.{length_row, first, verdict};
ghost use Rattle.history.specs.Rules.{valid_row, memory_rows, change_rows, list_rows, missing_at};
ghost use Rattle.custody.specs.Dealings.{keyed_rows};

use crate::cabinet::Cabinet;
use groups::group::Group;
use history::ledger::Ledger;
use sharing::fault::CabinetFault;
use sharing::helpers::{check_helpers, check_holder};
use sharing::lengths::check_count;
use sharing::tuples::first_invalid;

const LAST_EPOCH: u32 = 1000000;

// The first position of a helper whose share is missing.
fn first_missing(ledger: &Ledger, helpers: &[u32]) -> Option<usize>
    ensures { result ≡ first_place (missing_at ledger.now.holders helpers.now) 0 (length helpers.now) }
{
    helpers.iter().position(|h| !ledger.is_present(*h))
}

impl<G: Group> Cabinet<G> {
    // Refuses share memory of a wrong length.
    pub(crate) fn check_length(&self, shares: &[G::Element]) -> Result<(), CabinetFault>
        ensures { result ≡ verdict (length_row MemoryLength (self.now.scheme.n * (self.now.scheme.q - 1)) (length shares.now)) }
    {
        let full = self.scheme.share_length();
        check_count(CabinetFault::MemoryLength(full), full, shares.len())
    }

    // Refuses an invalid element in the share memory.
    pub(crate) fn check_valid(&self, shares: &[G::Element]) -> Result<(), CabinetFault>
        ensures { result ≡ verdict (valid_row (G.ops self.now.group) self.now.scheme shares.now) }
    {
        if let Some(i) = first_invalid(&self.group, shares) {
            return Err(CabinetFault::InvalidShare(i));
        }
        Ok(())
    }

    // Refuses share memory and working memory of wrong lengths, and an invalid element in the
    // former.
    pub(crate) fn check_memory(
        &self,
        shares: &[G::Element],
        working: usize,
    ) -> Result<(), CabinetFault>
        ensures { result ≡ verdict (first (memory_rows (G.ops self.now.group) self.now.scheme shares.now working)) }
    {
        self.check_length(shares)?;
        let room = self.scheme.working_length();
        check_count(CabinetFault::MemoryLength(room), room, working)?;
        self.check_valid(shares)
    }

    // Refuses the epoch after the last, an invalid key, a wrong number of coefficients, and an
    // invalid one among them. The key is what is dealt, which for a refresh is zero.
    pub(crate) fn check_deal(
        &self,
        key: G::Element,
        coefficients: &[G::Element],
    ) -> Result<(), CabinetFault>
        ensures { result ≡ verdict (first (keyed_rows (G.ops self.now.group) self.now.scheme self.now.ledger.epoch key coefficients.now)) }
    {
        if self.ledger.epoch >= LAST_EPOCH {
            return Err(CabinetFault::EpochLimit);
        }
        if !self.group.is_valid(key) {
            return Err(CabinetFault::InvalidKey);
        }
        let count = self.scheme.coefficient_count();
        let found = coefficients.len();
        check_count(CabinetFault::CoefficientCount(count), count, found)?;
        if let Some(i) = first_invalid(&self.group, coefficients) {
            return Err(CabinetFault::InvalidCoefficient(i));
        }
        Ok(())
    }

    // Refuses a holder that the scheme does not have, and one that is not present, or not missing,
    // as it should be.
    pub(crate) fn check_change(&self, present: bool, holder: u32) -> Result<(), CabinetFault>
        ensures { result ≡ verdict (first (change_rows self.now.scheme self.now.ledger.holders present holder)) }
    {
        check_holder(self.scheme, holder)?;
        if self.ledger.is_present(holder) != present {
            return Err(CabinetFault::WrongPresence);
        }
        Ok(())
    }

    // Refuses a list that is not of t different holders of the scheme, all present.
    pub(crate) fn check_list(&self, helpers: &[u32]) -> Result<(), CabinetFault>
        ensures { result ≡ verdict (first (list_rows self.now.scheme self.now.ledger.holders helpers.now)) }
    {
        check_helpers(self.scheme, helpers)?;
        if let Some(i) = first_missing(&self.ledger, helpers) {
            return Err(CabinetFault::MissingHelper(i));
        }
        Ok(())
    }
}
