ghost use Rattle.std.specs.Prelude.{◌≡◌, ◌≤◌, MatchResult};
ghost use Rattle.groups.specs.declared.fault.GroupFault.TheVariants.{Modulus};

use crate::fault::GroupFault;

const GREATEST_MODULUS: u32 = 2147483647;

// Refuses a modulus below the least, or above 2,147,483,647.
pub(crate) fn check_modulus(least: u32, modulus: u32) -> Result<(), GroupFault>
    ensures { MatchResult result (λ _. (least ≤ modulus) × (modulus ≤ 2147483647)) (λ e. ((least ≤ modulus) × (modulus ≤ 2147483647) → ⊥) × (e ≡ Modulus)) }
{
    if modulus < least || modulus > GREATEST_MODULUS {
        return Err(GroupFault::Modulus);
    }
    Ok(())
}
