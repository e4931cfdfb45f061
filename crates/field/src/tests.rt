// Published values of this field: powers of 2, as tables for codes over it print them.
use crate::{div, inv, mul};

const FIRST: [[u8; 8]; 4] = [
    [1, 2, 4, 8, 16, 32, 64, 128],
    [29, 58, 116, 232, 205, 135, 19, 38],
    [76, 152, 45, 90, 180, 117, 234, 201],
    [143, 3, 6, 12, 24, 48, 96, 192],
];

#[test]
fn first_powers(rt: HostRuntime) {
    let mut power = 1u8;
    for row in FIRST.iter() {
        for published in row.iter() {
            assert!(rt; power == *published);
            power = mul(2, power);
        }
    }
}

// The powers 50, 100, 175, 200 and 254, by squaring and multiplying.
#[test]
fn later_powers(rt: HostRuntime) {
    let p25 = 3u8;
    let p50 = mul(p25, p25);
    let p100 = mul(p50, p50);
    let p200 = mul(p100, p100);
    assert_eq!(rt; p50, 5);
    assert_eq!(rt; p100, 17);
    assert_eq!(rt; p200, 28);
    assert_eq!(rt; div(p200, p25), 255);
    assert_eq!(rt; inv(2), 142);
}

#[test]
fn of_zero(rt: HostRuntime) {
    assert_eq!(rt; inv(0), 0);
    assert_eq!(rt; div(7, 0), 0);
    assert_eq!(rt; mul(0, 9), 0);
}
