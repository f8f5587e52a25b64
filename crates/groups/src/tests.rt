use crate::blocks::Blocks;
use crate::encoded::EncodedGroup;
use crate::fault::GroupFault;
use crate::group::Group;
use crate::pair::{Pair, key_with_code, long_key};
use crate::sums::Sums;
use crate::units::Units;
use std::test::Fail;

const KEY: [u8; 16] = [0, 1, 2, 3, 4, 5, 6, 7, 8, 9, 10, 11, 12, 13, 14, 255];

#[test]
fn sums(rt: HostRuntime) -> Result<(), Fail> {
    let g = Sums::new(10)?;
    assert_eq!(rt; g.sum(7, 5), 2);
    assert_eq!(rt; g.negative(3), 7);
    assert_eq!(rt; g.negative(g.zero()), 0);
    assert!(rt; !g.is_valid(10));
    assert!(rt; Sums::new(1).is_err());
    assert!(rt; Sums::new(2147483648).is_err());
    Ok(())
}

#[test]
fn units_of_fifteen(rt: HostRuntime) -> Result<(), Fail> {
    let g = Units::new(15)?;
    assert_eq!(rt; g.sum(2, 8), g.zero());
    assert_eq!(rt; g.negative(2), 8);
    assert_eq!(rt; g.negative(14), 14);
    assert!(rt; g.is_valid(14));
    assert!(rt; !g.is_valid(0));
    assert!(rt; !g.is_valid(5));
    assert!(rt; !g.is_valid(15));
    assert!(rt; Units::new(2).is_err());
    Ok(())
}

// A modulus, a number below it, and its inverse.
const INVERSES: [(u32, u32, u32); 6] = [
    (2147483647, 2, 1073741824),
    (2147483647, 2147483646, 2147483646),
    (2147483646, 5, 1717986917),
    (2147483646, 65537, 1431677609),
    (2147483645, 2147483644, 2147483644),
    (3, 2, 2),
];

#[test]
fn inverses(rt: HostRuntime) -> Result<(), Fail> {
    for (modulus, a, inverse) in INVERSES {
        let g = Units::new(modulus)?;
        assert!(rt; g.is_valid(a));
        assert_eq!(rt; g.negative(a), inverse);
        assert_eq!(rt; g.sum(a, inverse), 1);
    }
    Ok(())
}

// A modulus, and a number that has a divisor in common with it.
const SHARED: [(u32, u32); 3] = [
    (2147483646, 2147483644),
    (2147483645, 5),
    (2147483646, 1073741823),
];

#[test]
fn shared_divisors(rt: HostRuntime) -> Result<(), Fail> {
    for (modulus, a) in SHARED {
        let g = Units::new(modulus)?;
        assert!(rt; !g.is_valid(a));
    }
    Ok(())
}

#[test]
fn blocks(rt: HostRuntime) {
    let g = Blocks;
    let ones = [255; 16];
    let sum = g.sum(KEY, ones);
    assert_eq!(rt; sum[15], 0);
    assert_eq!(rt; sum[1], 254);
    assert!(rt; g.same(g.sum(sum, ones), KEY));
    assert!(rt; g.same(g.sum(KEY, g.negative(KEY)), g.zero()));
    assert!(rt; !g.same(KEY, ones));
}

#[test]
fn pairs(rt: HostRuntime) -> Result<(), Fail> {
    let g = Pair::new(9, 7, Sums::new(10)?, Units::new(15)?)?;
    assert!(rt; g.same(g.sum((7, 2), (5, 8)), (2, 1)));
    assert!(rt; g.same(g.negative((3, 14)), (7, 14)));
    assert!(rt; !g.is_valid((3, 5)));
    assert!(rt; !g.same((1, 2), (1, 4)));
    assert!(rt; Pair::new(0, 7, Blocks, Blocks).is_err());
    Ok(())
}

#[test]
fn numbers_are_written(rt: HostRuntime) -> Result<(), Fail> {
    let g = Sums::new(70000)?;
    let mut out = [0; 4];
    g.write(66051, &mut out)?;
    assert_eq!(rt; out, [0, 1, 2, 3]);
    assert_eq!(rt; g.read(&out)?, 66051);
    assert!(rt; g.read(&[0, 1, 17, 112]).is_err(), "the modulus itself");
    assert!(rt; g.read(&[0, 1, 2]).is_err());
    assert!(rt; g.write(1, &mut [0; 5]).is_err());
    assert!(rt; Units::new(15)?.read(&[0, 0, 0, 5]).is_err());
    Ok(())
}

#[test]
fn pairs_are_written(rt: HostRuntime) -> Result<(), Fail> {
    let g = key_with_code(70000)?;
    let mut out = [0; 20];
    assert_eq!(rt; g.width(), 20);
    g.write((KEY, 66051), &mut out)?;
    assert_eq!(rt; out[15], 255);
    assert_eq!(rt; out[18], 2);
    assert!(rt; g.same(g.read(&out)?, (KEY, 66051)));
    assert!(rt; g.read(&out[0..19]).is_err());
    let long = long_key();
    assert_eq!(rt; (long.id(), long.modulus(), long.width()), (4, 0, 32));
    Ok(())
}

#[test]
fn faults(rt: HostRuntime) {
    assert_eq!(rt;
        (GroupFault::Modulus.number(), GroupFault::Modulus.place()),
        (2, 0)
    );
    assert_eq!(rt;
        (GroupFault::Encoding.number(), GroupFault::Encoding.place()),
        (23, 0)
    );
}
