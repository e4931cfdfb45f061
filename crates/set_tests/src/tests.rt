// Reads, changes, rebuilds and refusals.
use crate::data::{mixed, replace_unit};
use crate::rebuilt::{close, gather, rebuild};
use crate::runs::{
    Run, UnderScheme, declines_read, everywhere, lose_all, over, over_both, reads, under_all,
};
use codes::cauchy::Cauchy;
use codes::poly::Poly;
use codes::scheme::{GoesWith, NonXor, Rs, Scheme, Xor, XorPlus};
use sets::refusal::Refusal;
use sets::set::Set;
use sets::ticket::AnyTicket;
use std::process::Abort;
use std::test::*;
use stores::area::AreaStore;
use stores::store::UnitStore;

#[derive(Drop)]
struct FewStanding;

impl Run for FewStanding {
    fn run<V: Scheme, S: UnitStore>(
        &self,
        rt: &impl Abort,
        set: &mut Set<V, S>,
    ) -> Result<(), Fail> {
        let data: [u8; 80] = mixed(1);
        assert_eq!(rt; set.fill(&data), Ok(()));
        lose_all(rt, set, &[2, 9, 11, 14])?;
        reads(rt, set, &data, 2, 20)?;
        reads(rt, set, &data, 9, 20)?;
        assert_eq!(rt; set.lose(1), Ok(()));
        declines_read(rt, set, 2, [7; 8], Refusal::TooFew)?;
        reads(rt, set, &data, 10, 2)
    }
}

// With ten standing a missing unit reads; with nine only a standing one does.
#[test]
fn ten_and_nine(rt: HostRuntime) -> Result<(), Fail> {
    everywhere(&rt, &FewStanding)
}

// The unit to lose, and its listed halves in order.
#[derive(Clone, Copy)]
struct Listed {
    u: u8,
    halves: &'static [(u8, u8)],
}

impl Run for Listed {
    // The unit is changed while it is missing, so that its old bytes in the store are not its bytes any more.
    fn run<V: Scheme, S: UnitStore>(
        &self,
        rt: &impl Abort,
        set: &mut Set<V, S>,
    ) -> Result<(), Fail> {
        let mut data: [u8; 80] = mixed(2);
        let unit: [u8; 8] = mixed(3);
        let count = u8::try_from(self.halves.len())?;
        assert_eq!(rt; set.fill(&data), Ok(()));
        assert_eq!(rt; set.lose(self.u), Ok(()));
        assert_eq!(rt; set.change(self.u, &unit), Ok(4));
        replace_unit(&mut data, self.u, &unit);
        reads(rt, set, &data, self.u, count)?;
        let mut ticket = AnyTicket::Open(set.open(self.u)?);
        for half in self.halves {
            let (gathered, next) = gather(set, ticket);
            assert_eq!(rt; gathered, Some(*half));
            ticket = next;
        }
        assert_eq!(rt; close(set, ticket), Some(count));
        reads(rt, set, &data, self.u, 2)
    }
}

// Unit 2 under every version but RS: the parity of its group is 12.
const TWO_BY_GROUP: Listed = Listed {
    u: 2,
    halves: &[
        (1, 2),
        (3, 2),
        (4, 2),
        (5, 2),
        (6, 2),
        (7, 2),
        (8, 2),
        (9, 2),
        (10, 2),
        (11, 2),
        (12, 2),
        (1, 1),
        (3, 1),
    ],
};

// Unit 10 under XOR: the parity of its group is 14.
const TEN_BY_GROUP: Listed = Listed {
    u: 10,
    halves: &[
        (1, 2),
        (2, 2),
        (3, 2),
        (4, 2),
        (5, 2),
        (6, 2),
        (7, 2),
        (8, 2),
        (9, 2),
        (11, 2),
        (14, 2),
        (7, 1),
        (8, 1),
        (9, 1),
    ],
};

// Unit 10 under XOR+ and NONXOR, where it is in no group.
const TEN_BY_PARITIES: Listed = Listed {
    u: 10,
    halves: &[
        (1, 2),
        (2, 2),
        (3, 2),
        (4, 2),
        (5, 2),
        (6, 2),
        (7, 2),
        (8, 2),
        (9, 2),
        (11, 2),
        (13, 2),
        (14, 2),
        (12, 1),
    ],
};

// Unit 10 under RS.
const TEN_BY_ALL: Listed = Listed {
    u: 10,
    halves: &[
        (1, 1),
        (1, 2),
        (2, 1),
        (2, 2),
        (3, 1),
        (3, 2),
        (4, 1),
        (4, 2),
        (5, 1),
        (5, 2),
        (6, 1),
        (6, 2),
        (7, 1),
        (7, 2),
        (8, 1),
        (8, 2),
        (9, 1),
        (9, 2),
        (11, 1),
        (11, 2),
    ],
};

#[test]
fn listed_halves(rt: HostRuntime) -> Result<(), Fail> {
    over_both(&rt, &TEN_BY_ALL, Rs.over(Cauchy::new()))?;
    over_both(&rt, &TEN_BY_ALL, Rs.over(Poly::new()))?;
    over_both(&rt, &TWO_BY_GROUP, Xor.over(Cauchy::new()))?;
    over_both(&rt, &TWO_BY_GROUP, Xor.over(Poly::new()))?;
    over_both(&rt, &TWO_BY_GROUP, NonXor.over(Cauchy::new()))?;
    over_both(&rt, &TWO_BY_GROUP, NonXor.over(Poly::new()))?;
    over_both(&rt, &TWO_BY_GROUP, XorPlus.over(Cauchy::new()))?;
    over_both(&rt, &TEN_BY_GROUP, Xor.over(Cauchy::new()))?;
    over_both(&rt, &TEN_BY_GROUP, Xor.over(Poly::new()))?;
    over_both(&rt, &TEN_BY_PARITIES, NonXor.over(Cauchy::new()))?;
    over_both(&rt, &TEN_BY_PARITIES, NonXor.over(Poly::new()))?;
    over_both(&rt, &TEN_BY_PARITIES, XorPlus.over(Cauchy::new()))
}

#[derive(Drop)]
struct Changes;

impl Run for Changes {
    fn run<V: Scheme, S: UnitStore>(
        &self,
        rt: &impl Abort,
        set: &mut Set<V, S>,
    ) -> Result<(), Fail> {
        let mut data: [u8; 80] = mixed(4);
        let one: [u8; 8] = mixed(5);
        let three: [u8; 8] = mixed(6);
        assert_eq!(rt; set.fill(&data), Ok(()));
        assert_eq!(rt; set.change(1, &three), Ok(5));
        lose_all(rt, set, &[12])?;
        assert_eq!(rt; set.change(1, &one), Ok(4));
        lose_all(rt, set, &[3])?;
        assert_eq!(rt; set.change(3, &three), Ok(3));
        replace_unit(&mut data, 1, &one);
        replace_unit(&mut data, 3, &three);
        reads(rt, set, &data, 1, 2)?;
        reads(rt, set, &data, 3, 20)?;
        // a read of unit 3 then goes by the rebuilt parity alone
        assert_eq!(rt; rebuild(set, 12)?, Some(20));
        lose_all(rt, set, &[11, 13, 14])?;
        reads(rt, set, &data, 3, 20)?;
        assert_eq!(rt; set.change(3, &one), Ok(1));
        replace_unit(&mut data, 3, &one);
        reads(rt, set, &data, 3, 20)
    }
}

// How many units a change puts, and what is read and rebuilt after it.
#[test]
fn changing(rt: HostRuntime) -> Result<(), Fail> {
    everywhere(&rt, &Changes)
}

// Five units are lost, the last after a rebuild was open; calls are declined before and after that, or none are.
#[derive(Clone, Copy)]
struct Losses {
    seed: u32,
    declined: bool,
}

impl Run for Losses {
    fn run<V: Scheme, S: UnitStore>(
        &self,
        rt: &impl Abort,
        set: &mut Set<V, S>,
    ) -> Result<(), Fail> {
        let data: [u8; 80] = mixed(self.seed);
        assert_eq!(rt; set.fill(&data), Ok(()));
        lose_all(rt, set, &[2, 5, 11, 14])?;
        let t = set.open(2)?;
        let result = if self.declined {
            declined_while_open(rt, set, &data)
        } else {
            Ok(())
        };
        let ended = set.give_up(AnyTicket::Open(t));
        result?;
        assert_eq!(rt; ended, Ok(()));
        assert_eq!(rt; set.lose(6), Ok(()));
        if self.declined {
            declined_below_ten(rt, set, &data)?;
        }
        reads(rt, set, &data, 1, 2)
    }
}

// The first reason decides.
#[test]
fn order_of_refusals(rt: HostRuntime) -> Result<(), Fail> {
    everywhere(
        &rt,
        &Losses {
            seed: 7,
            declined: true,
        },
    )
}

#[test]
fn numbers_of_refusals(rt: HostRuntime) {
    let numbers = [
        (Refusal::NoUnit, 1),
        (Refusal::TooFew, 5),
        (Refusal::RebuildOpen, 6),
        (Refusal::Stands, 8),
    ];
    for (refusal, number) in numbers {
        assert_eq!(rt; refusal.number(), number);
    }
}

// What an opening is declined with; none where it is not, and the ticket given up again.
fn open_declined<V: Scheme, S: UnitStore>(set: &mut Set<V, S>, u: u8) -> Option<Refusal> {
    match set.open(u) {
        Ok(t) => {
            let _ = set.give_up(AnyTicket::Open(t));
            None
        }
        Err(e) => Some(e),
    }
}

// A rebuild of unit 2 is open, and ten units stand.
fn declined_while_open<V: Scheme, S: UnitStore>(
    rt: &impl Abort,
    set: &mut Set<V, S>,
    data: &[u8],
) -> Result<(), Fail> {
    assert_eq!(rt; set.fill(&[1; 79]), Err(Refusal::WrongLength));
    assert_eq!(rt; set.fill(&[1; 80]), Err(Refusal::RebuildOpen));
    assert_eq!(rt; set.lose(0), Err(Refusal::NoUnit));
    assert_eq!(rt; set.lose(15), Err(Refusal::NoUnit));
    assert_eq!(rt; set.lose(2), Err(Refusal::RebuildOpen));
    assert_eq!(rt; set.change(11, &[1; 7]), Err(Refusal::NoUnit));
    assert_eq!(rt; set.change(2, &[1; 7]), Err(Refusal::WrongLength));
    assert_eq!(rt; set.change(2, &[1; 8]), Err(Refusal::RebuildOpen));
    assert_eq!(rt; open_declined(set, 15), Some(Refusal::NoUnit));
    assert_eq!(rt; open_declined(set, 2), Some(Refusal::RebuildOpen));
    assert_eq!(rt; open_declined(set, 1), Some(Refusal::RebuildOpen));
    reads(rt, set, data, 2, 20)?;
    reads(rt, set, data, 1, 2)
}

// Nine units stand, among them 1.
fn declined_below_ten<V: Scheme, S: UnitStore>(
    rt: &impl Abort,
    set: &mut Set<V, S>,
    data: &[u8],
) -> Result<(), Fail> {
    declines_read(rt, set, 0, [7; 7], Refusal::NoUnit)?;
    declines_read(rt, set, 11, [7; 7], Refusal::NoUnit)?;
    declines_read(rt, set, 2, [7; 7], Refusal::WrongLength)?;
    declines_read(rt, set, 2, [7; 8], Refusal::TooFew)?;
    assert_eq!(rt; set.change(0, &[1; 7]), Err(Refusal::NoUnit));
    assert_eq!(rt; set.change(1, &[1; 7]), Err(Refusal::WrongLength));
    assert_eq!(rt; set.change(1, &[1; 8]), Err(Refusal::TooFew));
    assert_eq!(rt; open_declined(set, 0), Some(Refusal::NoUnit));
    assert_eq!(rt; open_declined(set, 1), Some(Refusal::Stands));
    assert_eq!(rt; open_declined(set, 2), Some(Refusal::TooFew));
    Ok(())
}

// The scheme again, and the area behind the losses.
fn area_behind<V: Scheme + Drop>(
    rt: &impl Abort,
    scheme: V,
    declined: bool,
) -> Result<(V, [u8; 112]), Fail> {
    let mut area = [170u8; 112];
    let losses = Losses { seed: 8, declined };
    let scheme = over(rt, &losses, scheme, AreaStore::new(&mut area, 4, 2))?;
    Ok((scheme, area))
}

#[derive(Clone, Copy)]
struct SameAreas;

impl UnderScheme for SameAreas {
    fn run<V: Scheme + Drop>(&self, rt: &impl Abort, scheme: V) -> Result<(), Fail> {
        let (scheme, declined) = area_behind(rt, scheme, true)?;
        let (_, undisturbed) = area_behind(rt, scheme, false)?;
        assert_eq!(rt; declined, undisturbed);
        Ok(())
    }
}

// Declined calls leave every byte of the store as it was.
#[test]
fn declined_calls_alter_nothing(rt: HostRuntime) -> Result<(), Fail> {
    under_all(&rt, &SameAreas)
}
