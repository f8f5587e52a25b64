ghost use Rattle.std.specs.Prelude.{◌≡◌, ℕ, ◌<◌, ◌^◌, true, false, length, MatchResult, ◌≢◌, ◌⊎◌};
ghost use Rattle.groups.specs.Forms.{RoomRefused, four};
ghost use Rattle.groups.specs.declared.fault.GroupFault.TheVariants.{Encoding};

use crate::fault::GroupFault;

// Copies `from` to a slice of its length, and refuses any other.
pub(crate) fn write_whole(from: &[u8], out: &mut [u8]) -> Result<(), GroupFault>
    ensures { MatchResult result (λ _. (length out.old ≡ length from.now) × (out.new ≡ from.now)) (RoomRefused (length from.now) out.old out.new) }
{
    if out.len() != from.len() {
        return Err(GroupFault::Encoding);
    }
    out.copy_from_slice(from);
    Ok(())
}

// Four bytes, the highest first.
pub(crate) fn write_number(a: u32, out: &mut [u8]) -> Result<(), GroupFault>
    ensures { MatchResult result (λ _. (length out.old ≡ 4) × (out.new ≡ four a)) (RoomRefused 4 out.old out.new) }
{
    write_whole(&a.to_be_bytes(), out)
}

// Reads an array from a slice of its length, and refuses any other.
pub(crate) fn read_array<const N: usize>(bytes: &[u8]) -> Result<[u8; N], GroupFault>
    ensures { MatchResult result (λ a. (length bytes.now ≡ N) × (a ≡ bytes.now)) (λ e. (length bytes.now ≢ N) × (e ≡ Encoding)) }
{
    <[u8; N]>::try_from(bytes).map_err(|_| GroupFault::Encoding)
}

fn read_number(bytes: &[u8]) -> Result<u32, GroupFault>
    ensures { MatchResult result (λ a. bytes.now ≡ four a) (λ e. (length bytes.now ≢ 4) × (e ≡ Encoding)) }
{
    let word: [u8; 4] = read_array(bytes)?;
    Ok(u32::from_be_bytes(word))
}

// Reads a number that `keep` accepts, and refuses any other bytes.
pub(crate) fn read_where<F: Fn(u32) -> bool>(bytes: &[u8], keep: F) -> Result<u32, GroupFault>
    requires { F.IsAlwaysCallable keep }
    ensures { MatchResult result (λ a. (bytes.now ≡ four a) × F.post keep a true) (λ e. (e ≡ Encoding) × ((length bytes.now ≢ 4) ⊎ ((a : ℕ) × (a < 2 ^ 32) × (bytes.now ≡ four a) × F.post keep a false))) }
{
    let a = read_number(bytes)?;
    if !keep(a) {
        return Err(GroupFault::Encoding);
    }
    Ok(a)
}
