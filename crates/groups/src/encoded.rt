ghost use Rattle.std.specs.Prelude.{◌≡◌, ◌≤◌, MatchResult};
ghost use Rattle.groups.specs.Forms.{Form, FormLaws, Wrote, RoomRefused, ReadsAs, NoForm};

use crate::fault::GroupFault;
use crate::group::Group;

// A group whose elements are written in bytes.
//
// `form` says how, and `encoded` what is owed of that. What is written for an invalid element
// stays open.
pub trait EncodedGroup: Group {
    ghost form: { Self → Form Self.Element };

    // The number by which written forms name the group; an owner's group brings its own.
    fn id(&self) -> u8
        ensures { result ≡ (form self.now).id };

    fn modulus(&self) -> u32
        ensures { result ≡ (form self.now).modulus };

    // How many bytes an element takes.
    fn width(&self) -> usize
        ensures { result ≡ (form self.now).width };

    // Writes into a slice of just `width` bytes. Any other is refused, and stays as it was.
    fn write(&self, a: Self::Element, out: &mut [u8]) -> Result<(), GroupFault>
        ensures { MatchResult result (λ _. Wrote (Self.Group.ops self.now) (form self.now) a out.old out.new) (RoomRefused (form self.now).width out.old out.new) };

    // Reads a valid element, and refuses any other bytes.
    fn read(&self, bytes: &[u8]) -> Result<Self::Element, GroupFault>
        ensures { MatchResult result (ReadsAs (Self.Group.ops self.now) (form self.now) bytes.now) (NoForm (Self.Group.ops self.now) (form self.now) bytes.now) };

    ghost encoded: { (g : Self) → FormLaws (Self.Group.ops g) (form g) };
}

// An encoded group whose elements take at most 16 bytes.
pub trait ShortGroup: EncodedGroup {
    ghost short: { (g : Self) → (Self.EncodedGroup.form g).width ≤ 16 };
}
