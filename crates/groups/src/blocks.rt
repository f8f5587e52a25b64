ghost use Rattle.groups.specs.Blocks.{blocks};
ghost use Rattle.groups.specs.Forms.{block_form};
ghost use Rattle.groups.specs.Xors.{blocks_laws};
ghost use Rattle.std.proofs.Common.{rules};

use crate::bytes::{read_array, write_whole};
use crate::encoded::{EncodedGroup, ShortGroup};
use crate::fault::GroupFault;
use crate::group::Group;
use std::array;

// Blocks of 16 bytes, under exclusive or. Each is its own negative.
#[derive(Clone, Copy)]
pub struct Blocks;

impl Group for Blocks {
    type Element = [u8; 16];

    const DEAR_NEGATIVES: bool = false;

    ghost ops = { λ _. blocks };

    ghost laws = { λ g. blocks_laws };

    fn is_valid(&self, _a: [u8; 16]) -> bool {
        true
    }

    fn same(&self, a: [u8; 16], b: [u8; 16]) -> bool {
        a == b
    }

    fn zero(&self) -> [u8; 16] {
        [0; 16]
    }

    fn sum(&self, a: [u8; 16], b: [u8; 16]) -> [u8; 16] {
        array::from_fn(|i| a[i] ^ b[i])
    }

    fn negative(&self, a: [u8; 16]) -> [u8; 16] {
        a
    }
}

impl EncodedGroup for Blocks {
    ghost form = { λ _. block_form };

    ghost encoded = { Prim.search rules };

    fn id(&self) -> u8 {
        1
    }

    fn modulus(&self) -> u32 {
        0
    }

    fn width(&self) -> usize {
        16
    }

    fn write(&self, a: [u8; 16], out: &mut [u8]) -> Result<(), GroupFault> {
        write_whole(&a, out)
    }

    fn read(&self, bytes: &[u8]) -> Result<[u8; 16], GroupFault> {
        read_array(bytes)
    }
}

impl ShortGroup for Blocks {
    ghost short = { Prim.search rules };
}
