// Worked figures, and whole fillings at the half sizes 0, 1 and 512.
use crate::data::{is_unit, mixed, replace_unit};
use crate::held::is_filling;
use crate::rebuilt::rebuild;
use crate::runs::{UnderScheme, under_all};
use codes::cauchy::Cauchy;
use codes::poly::Poly;
use codes::scheme::{GoesWith, NonXor, Rs, Scheme, Xor, XorPlus};
use sets::refusal::Refusal;
use sets::set::Set;
use std::process::Abort;
use std::test::*;
use stores::area::AreaStore;
use stores::refusal::Refusal as StoreRefusal;
use stores::shelves::TwoShelf;
use stores::store::UnitStore;

// The byte of one half in a store of half size 1.
fn byte_in<S: UnitStore>(store: &S, u: u8, half: u8) -> Result<u8, StoreRefusal> {
    let mut place = [0u8];
    store.read(u, half, &mut place)?;
    Ok(place[0])
}

// Units 11 to 14 of such a store.
fn parities<S: UnitStore>(store: &S) -> Result<[(u8, u8); 4], StoreRefusal> {
    [11, 12, 13, 14].try_map(|u| Ok((byte_in(store, u, 1)?, byte_in(store, u, 2)?)))
}

// Fills a set over either store with data that is zero but unit u, and looks at the parities in the store.
fn fills_to<V: Scheme + Drop>(
    rt: &impl Abort,
    scheme: V,
    u: u8,
    unit: &[u8],
    figures: [(u8, u8); 4],
) {
    let mut data = [0u8; 20];
    replace_unit(&mut data, u, unit);
    let mut area = [0u8; 28];
    let mut low = [0u8; 28];
    let mut high = [0u8; 56];
    let scheme = fills_store_to(rt, scheme, AreaStore::new(&mut area, 1, 1), &data, figures);
    let shelves = TwoShelf::new(
        AreaStore::new(&mut low, 1, 1),
        AreaStore::new(&mut high, 2, 1),
    );
    let _ = fills_store_to(rt, scheme, shelves, &data, figures);
}

// The same over one store; gives the scheme back.
fn fills_store_to<V: Scheme, S: UnitStore + Drop>(
    rt: &impl Abort,
    scheme: V,
    store: S,
    data: &[u8],
    figures: [(u8, u8); 4],
) -> V {
    let mut set = Set::new(scheme, store);
    let filled = set.fill(data);
    let (scheme, store) = set.into_parts();
    assert_eq!(rt; filled, Ok(()));
    assert_eq!(rt; parities(&store), Ok(figures));
    scheme
}

#[test]
fn figures(rt: HostRuntime) {
    fills_to(
        &rt,
        Xor.over(Cauchy::new()),
        10,
        &[1, 0],
        [(245, 0), (1, 0), (83, 0), (142, 1)],
    );
    fills_to(
        &rt,
        XorPlus.over(Cauchy::new()),
        10,
        &[1, 0],
        [(245, 0), (1, 0), (83, 0), (142, 0)],
    );
    fills_to(
        &rt,
        NonXor.over(Poly::new()),
        10,
        &[1, 0],
        [(15, 0), (54, 0), (120, 0), (64, 0)],
    );
    fills_to(
        &rt,
        XorPlus.over(Cauchy::new()),
        9,
        &[1, 1],
        [(143, 143), (0, 1), (201, 201), (244, 245)],
    );
}

// A unit to lose at some half size: the area and the data before, the new bytes of a data unit, and the place that it is read
// into. They are fields, since an array of a const parameter's length that a function makes itself is not known to fit in memory.
#[derive(Clone, Copy)]
struct Lost<const AREA: usize, const DATA: usize, const UNIT: usize> {
    u: u8,
    area: [u8; AREA],
    bytes: [u8; DATA],
    unit: [u8; UNIT],
    place: [u8; UNIT],
}

impl<const AREA: usize, const DATA: usize, const UNIT: usize> Lost<AREA, DATA, UNIT> {
    // Loses the unit, changes a data unit, which is the lost one if it can be, reads that and rebuilds the lost one.
    fn lose_and_rebuild<V: Scheme, S: UnitStore>(
        &self,
        rt: &impl Abort,
        set: &mut Set<V, S>,
        data: &mut [u8],
    ) -> Result<(), Fail> {
        let Lost {
            u,
            unit,
            mut place,
            ..
        } = *self;
        let changed = if u <= 10 { u } else { 1 };
        assert_eq!(rt; set.fill(data), Ok(()));
        assert_eq!(rt; set.lose(u), Ok(()));
        assert_eq!(rt; set.change(changed, &unit), Ok(4));
        replace_unit(data, changed, &unit);
        assert!(rt; set.read(changed, &mut place).is_ok());
        assert!(rt; is_unit(data, changed, &place));
        assert!(rt; rebuild(set, u)?.is_some());
        Ok(())
    }
}

impl<const AREA: usize, const DATA: usize, const UNIT: usize> UnderScheme
    for Lost<AREA, DATA, UNIT> {
    // All fourteen units are those of the changed data then.
    fn run<V: Scheme + Drop>(&self, rt: &impl Abort, scheme: V) -> Result<(), Fail> {
        let mut area = self.area;
        let mut data = self.bytes;
        let h = UNIT / 2;
        let mut set = Set::new(scheme, AreaStore::new(&mut area, h, h));
        let result = self.lose_and_rebuild(rt, &mut set, &mut data);
        let (scheme, store) = set.into_parts();
        result?;
        assert!(rt; is_filling(&scheme, &store, &data));
        Ok(())
    }
}

#[test]
fn halves_of_one_byte(rt: HostRuntime) -> Result<(), Fail> {
    for u in 1..15u8 {
        let lost = Lost {
            u,
            area: [0; 28],
            bytes: mixed::<20>(u as u32),
            unit: mixed::<2>(10),
            place: [0; 2],
        };
        under_all(&rt, &lost)?;
    }
    Ok(())
}

#[test]
fn largest_halves(rt: HostRuntime) -> Result<(), Fail> {
    for u in 1..15u8 {
        let lost = Lost {
            u,
            area: mixed::<14_336>(12),
            bytes: mixed::<10_240>(u as u32),
            unit: mixed::<1024>(11),
            place: mixed::<1024>(13),
        };
        under_all(&rt, &lost)?;
    }
    Ok(())
}

fn calls_without_bytes<V: Scheme, S: UnitStore>(
    rt: &impl Abort,
    set: &mut Set<V, S>,
) -> Result<(), Fail> {
    assert_eq!(rt; set.fill(&[1]), Err(Refusal::WrongLength));
    assert_eq!(rt; set.fill(&[]), Ok(()));
    assert_eq!(rt; set.read(1, &mut []), Ok(2));
    assert_eq!(rt; set.change(1, &[]), Ok(5));
    assert_eq!(rt; set.lose(1), Ok(()));
    assert_eq!(rt; set.read(1, &mut []), Ok(13));
    assert_eq!(rt; rebuild(set, 1)?, Some(13));
    Ok(())
}

// Where the area does not suit, a half has no bytes; all fourteen units stand after a fill.
#[test]
fn halves_without_bytes(rt: HostRuntime) -> Result<(), Fail> {
    let mut area = [0u8; 27];
    let mut set = Set::new(Xor.over(Cauchy::new()), AreaStore::new(&mut area, 1, 1));
    let result = calls_without_bytes(&rt, &mut set);
    let (scheme, store) = set.into_parts();
    result?;
    assert!(rt; is_filling(&scheme, &store, &[]));
    Ok(())
}
