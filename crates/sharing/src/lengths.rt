ghost use Rattle.std.specs.Prelude.{◌≡◌, MatchResult};

use crate::fault::CabinetFault;

// Refuses any number of elements but the right one, with this fault.
pub fn check_count(fault: CabinetFault, right: usize, found: usize) -> Result<(), CabinetFault>
    ensures { MatchResult result (λ _. found ≡ right) (λ e. (found ≡ right → ⊥) × (e ≡ fault)) }
{
    if found != right {
        return Err(fault);
    }
    Ok(())
}
