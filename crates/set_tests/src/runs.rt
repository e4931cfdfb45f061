// Runs of calls, under every scheme and over both stores.
use crate::data::is_unit;
use codes::cauchy::Cauchy;
use codes::poly::Poly;
use codes::scheme::{GoesWith, NonXor, Rs, Scheme, Xor, XorPlus};
use sets::refusal::Refusal;
use sets::set::Set;
use std::process::Abort;
use std::test::*;
use stores::area::AreaStore;
use stores::shelves::TwoShelf;
use stores::store::UnitStore;

// Something done under a scheme: a trait, since a closure would take one type of scheme.
pub(crate) trait UnderScheme {
    fn run<V: Scheme + Drop>(&self, rt: &impl Abort, scheme: V) -> Result<(), Fail>;
}

// Under each version over each base code that it goes with.
pub(crate) fn under_all<C: UnderScheme>(rt: &impl Abort, case: &C) -> Result<(), Fail> {
    case.run(rt, Rs.over(Cauchy::new()))?;
    case.run(rt, Rs.over(Poly::new()))?;
    case.run(rt, Xor.over(Cauchy::new()))?;
    case.run(rt, Xor.over(Poly::new()))?;
    case.run(rt, NonXor.over(Cauchy::new()))?;
    case.run(rt, NonXor.over(Poly::new()))?;
    case.run(rt, XorPlus.over(Cauchy::new()))
}

// Calls and checks on a new set of any types, whose half size is 4.
pub(crate) trait Run {
    fn run<V: Scheme, S: UnitStore>(
        &self,
        rt: &impl Abort,
        set: &mut Set<V, S>,
    ) -> Result<(), Fail>;
}

// A run over both stores.
#[derive(Clone, Copy)]
struct OverBoth<'a, R> {
    run: &'a R,
}

impl<R: Run> UnderScheme for OverBoth<'_, R> {
    fn run<V: Scheme + Drop>(&self, rt: &impl Abort, scheme: V) -> Result<(), Fail> {
        over_both(rt, self.run, scheme)
    }
}

pub(crate) fn everywhere<R: Run>(rt: &impl Abort, run: &R) -> Result<(), Fail> {
    under_all(rt, &OverBoth { run })
}

// Over an area with the hop length 2, and then over two shelves.
pub(crate) fn over_both<V: Scheme + Drop, R: Run>(
    rt: &impl Abort,
    run: &R,
    scheme: V,
) -> Result<(), Fail> {
    let mut area = [170u8; 112];
    let mut low = [170u8; 168];
    let mut high = [85u8; 112];
    let scheme = over(rt, run, scheme, AreaStore::new(&mut area, 4, 2))?;
    let shelves = TwoShelf::new(
        AreaStore::new(&mut low, 6, 3),
        AreaStore::new(&mut high, 4, 1),
    );
    let _ = over(rt, run, scheme, shelves)?;
    Ok(())
}

// Over one store; gives the scheme back.
pub(crate) fn over<V: Scheme + Drop, S: UnitStore + Drop, R: Run>(
    rt: &impl Abort,
    run: &R,
    scheme: V,
    store: S,
) -> Result<V, Fail> {
    let mut set = Set::new(scheme, store);
    let result = run.run(rt, &mut set);
    let (scheme, _) = set.into_parts();
    result?;
    Ok(scheme)
}

// Loses the units.
pub(crate) fn lose_all<V: Scheme, S: UnitStore>(
    rt: &impl Abort,
    set: &mut Set<V, S>,
    units: &[u8],
) -> Result<(), Fail> {
    for u in units {
        assert_eq!(rt; set.lose(*u), Ok(()));
    }
    Ok(())
}

// A read that fetches so many halves and gives the data's unit.
pub(crate) fn reads<V: Scheme, S: UnitStore>(
    rt: &impl Abort,
    set: &Set<V, S>,
    data: &[u8],
    u: u8,
    halves: u8,
) -> Result<(), Fail> {
    let mut place = [7u8; 8];
    assert_eq!(rt; set.read(u, &mut place), Ok(halves));
    assert!(rt; is_unit(data, u, &place));
    Ok(())
}

// A read that is declined and leaves the place as it was.
pub(crate) fn declines_read<const N: usize, V: Scheme, S: UnitStore>(
    rt: &impl Abort,
    set: &Set<V, S>,
    u: u8,
    before: [u8; N],
    refusal: Refusal,
) -> Result<(), Fail> {
    let mut place = before;
    assert_eq!(rt; set.read(u, &mut place), Err(refusal));
    assert_eq!(rt; place, before);
    Ok(())
}
