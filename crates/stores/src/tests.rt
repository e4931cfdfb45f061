// Examples, and what callers can conclude from the contracts.
ghost use Rattle.std.specs.Prelude.{◌≡◌, ◌*◌, length, drop, Ok};
ghost use Rattle.stores.specs.Area.{fresh, put_area};

use crate::area::{AreaStore, suits};
use crate::refusal::{AreaRefusal, Refusal};
use crate::shelves::TwoShelf;
use crate::store::UnitStore;

// The lender finds no byte altered after losses,
fn only_losses(area: &mut [u8], size: usize, hop: usize, unit: u8)
    ensures { area.new ≡ area.old }
{
    let mut store = AreaStore::new(area, size, hop);
    let _ = store.lose(unit);
    let _ = store.lose(3);
}

// and only the unit's bytes after a put.
fn one_put(area: &mut [u8], size: usize, hop: usize, unit: u8, bytes: &[u8])
    ensures { area.new ≡ put_area (fresh (length area.old) size hop) hop unit bytes.now area.old }
{
    let mut store = AreaStore::new(area, size, hop);
    let _ = store.put(unit, bytes);
}

// One call after another: the contracts add up.
fn put_lose_put(area: &mut [u8], size: usize, hop: usize, first: &[u8], second: &[u8])
    ensures { area.new ≡ put_area (fresh (length area.old) size hop) hop 9 second.now (put_area (fresh (length area.old) size hop) hop 2 first.now area.old) }
{
    let mut store = AreaStore::new(area, size, hop);
    let _ = store.put(2, first);
    let _ = store.lose(2);
    let _ = store.put(9, second);
}

// From the trait alone: what was put is read, whatever the store.
fn put_and_read<S: UnitStore>(s: &mut S, bytes: &[u8], place: &mut [u8]) -> Result<(), Refusal>
    requires all { length bytes.now ≡ 2 * (S.model s.old).size }
    requires half { length place.old ≡ (S.model s.old).size }
    ensures answer { result ≡ Ok tt }
    ensures place { place.new ≡ drop (S.model s.old).size bytes.now }
{
    s.put(3, bytes)?;
    s.read(3, 2, place)
}

// With H = 4 and h = 2, bytes 0, 1, 4 and 5 of a unit are its first half.
#[test]
fn four_by_two(rt: HostRuntime) {
    let mut area = [9u8; 112];
    one_put(&mut area, 4, 2, 2, &[1, 2, 3, 4, 5, 6, 7, 8]);
    assert_eq!(rt; &area[7..17], [9, 1, 2, 5, 6, 3, 4, 7, 8, 9].as_slice());
    only_losses(&mut area, 4, 2, 2);
    assert_eq!(rt; &area[7..17], [9, 1, 2, 5, 6, 3, 4, 7, 8, 9].as_slice());
}

#[test]
fn measures(rt: HostRuntime) {
    assert_eq!(rt; suits(14_336, 512, 512), Ok(()));
    assert_eq!(rt; suits(28 * 513, 513, 513), Err(AreaRefusal::HalfSize));
    assert_eq!(rt; suits(0, 0, 0), Err(AreaRefusal::HalfSize));
    assert_eq!(rt; suits(112, 4, 3), Err(AreaRefusal::HopLength));
    assert_eq!(rt; suits(112, 4, 0), Err(AreaRefusal::HopLength));
    assert_eq!(rt; suits(111, 4, 2), Err(AreaRefusal::AreaLength));
}

// 28 times 2^62 is 0 modulo 2^64, and 28 times 2^64 - 1 is 2^64 - 28 there.
#[test]
fn extreme_measures(rt: HostRuntime) {
    let most = usize::MAX;
    assert_eq!(rt; suits(most, most, most), Err(AreaRefusal::HalfSize));
    assert_eq!(rt; suits(most - 27, most, 1), Err(AreaRefusal::HalfSize));
    assert_eq!(rt; suits(0, 1 << 62, 1), Err(AreaRefusal::HalfSize));
    assert_eq!(rt; suits(112, 4, most), Err(AreaRefusal::HopLength));
    assert_eq!(rt; suits(most, 4, 4), Err(AreaRefusal::AreaLength));
}

#[test]
fn refusals_in_order(rt: HostRuntime) {
    let mut area = [0u8; 112];
    let mut store = AreaStore::new(&mut area, 4, 2);
    let mut place = [7u8; 4];
    let mut long = [7u8; 5];
    assert_eq!(rt; store.read(15, 3, &mut long), Err(Refusal::Unit));
    assert_eq!(rt; store.read(14, 3, &mut long), Err(Refusal::Half));
    assert_eq!(rt; store.read(14, 2, &mut long), Err(Refusal::Length));
    assert_eq!(rt; store.read(14, 2, &mut place), Err(Refusal::Missing));
    assert_eq!(rt; store.put(0, &long), Err(Refusal::Unit));
    assert_eq!(rt; store.put(1, &long), Err(Refusal::Length));
    assert_eq!(rt; store.lose(255), Err(Refusal::Unit));
    assert_eq!(rt; store.lose(1), Ok(()));
    assert_eq!(rt; place, [7; 4]);
}

// Where the area does not suit, the half size is 0: a unit of no bytes can stand.
#[test]
fn no_bytes(rt: HostRuntime) {
    let mut area = [5u8; 113];
    let mut store = AreaStore::new(&mut area, 4, 2);
    assert_eq!(rt; store.size(), 0);
    assert!(rt; !store.stands(1));
    assert_eq!(rt; store.put(1, &[]), Ok(()));
    assert!(rt; store.stands(1) && !store.stands(0));
    assert_eq!(rt; store.read(1, 2, &mut []), Ok(()));
}

// Unit 11 of the two shelves is unit 11 of the shelf with the larger half size: there each half ends in zeros.
#[test]
fn shelves(rt: HostRuntime) {
    let mut low = [0u8; 56];
    let mut high = [1u8; 112];
    let mut two = TwoShelf::new(
        AreaStore::new(&mut low, 2, 1),
        AreaStore::new(&mut high, 4, 2),
    );
    let mut place = [0u8; 2];
    let mut whole = [9u8; 4];
    assert_eq!(rt; two.put(11, &[1, 2, 3, 4]), Ok(()));
    assert_eq!(rt; two.read(11, 2, &mut place), Ok(()));
    assert_eq!(rt; place, [3, 4]);
    let (_lower, upper) = two.into_parts();
    assert_eq!(rt; upper.read(11, 2, &mut whole), Ok(()));
    assert_eq!(rt; whole, [3, 4, 0, 0]);
}

// Two shelves stand on two shelves: unit 10 of the whole is unit 10 of the inner lower shelf.
#[test]
fn shelves_on_shelves(rt: HostRuntime) {
    let mut first = [1u8; 56];
    let mut second = [1u8; 28];
    let mut third = [1u8; 28];
    let inner = TwoShelf::new(
        AreaStore::new(&mut first, 2, 1),
        AreaStore::new(&mut second, 1, 1),
    );
    let mut outer = TwoShelf::new(inner, AreaStore::new(&mut third, 1, 1));
    let mut place = [0u8; 1];
    assert_eq!(rt; outer.put(10, &[3, 4]), Ok(()));
    assert_eq!(rt; outer.read(10, 2, &mut place), Ok(()));
    assert_eq!(rt; place, [4]);
    let (inner, _upper) = outer.into_parts();
    assert!(rt; inner.stands(10) && !inner.stands(11));
}
