ghost use Rattle.std.specs.Prelude.{◌≡◌, ◌+◌, ◌<◌, ◌≤◌, ◌⊎◌, MatchOption};
ghost use Rattle.history.specs.Ledgers.{fresh, is_present, with_holder};

// The most holders that a scheme can have.
const MOST_HOLDERS: usize = 30;

// What is recorded of a holder: whether the share is present, and the epoch at which that last changed.
// A missing holder has that epoch too, so this is no Option.
#[derive(Clone, Copy, PartialEq, Eq, Debug)]
pub struct Holder {
    pub present: bool,
    pub changed: u32,
}

// The public part of a cabinet's state: how many deals it has accepted, and its holders from number 1 on.
// The library has no heap, so there are places for the most holders.
#[derive(Clone, Copy, PartialEq, Eq, Debug)]
pub struct Ledger {
    pub epoch: u32,
    pub holders: [Holder; MOST_HOLDERS],
}

impl Ledger {
    // Epoch 0, and every holder present.
    pub fn new() -> Self
        ensures { result ≡ fresh }
    {
        let holder = Holder {
            present: true,
            changed: 0,
        };
        Ledger {
            epoch: 0,
            holders: [holder; MOST_HOLDERS],
        }
    }

    // Where a holder's record stands; a number that no scheme has has none.
    fn place(holder: u32) -> Option<usize>
        ensures { MatchOption result ((holder < 1) ⊎ (30 < holder)) (λ i. (i < 30) × (holder ≡ i + 1)) }
    {
        let place = (holder as usize).checked_sub(1)?;
        (place < MOST_HOLDERS).then_some(place)
    }

    // Whether a holder's share is present; a number that no scheme has is not.
    pub fn is_present(&self, holder: u32) -> bool
        ensures { result ≡ is_present self.now.holders holder }
    {
        Self::place(holder).is_some_and(|place| self.holders[place].present)
    }

    // Records that a holder's share is present or missing from this epoch on; a number that no
    // holder can have changes nothing.
    pub fn mark(&mut self, holder: u32, present: bool)
        ensures known { 1 ≤ holder → holder ≤ 30 → self.new ≡ with_holder holder present self.old }
        ensures unknown { (holder < 1) ⊎ (30 < holder) → self.new ≡ self.old }
    {
        if let Some(place) = Self::place(holder) {
            self.holders[place] = Holder {
                present,
                changed: self.epoch,
            };
        }
    }
}
