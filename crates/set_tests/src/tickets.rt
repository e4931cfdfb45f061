// Tickets of one set handed to another: one under XOR, where unit 2 is listed with 13 halves, and one under RS, with 20.
use crate::data::mixed;
use crate::rebuilt::{close, gather, gather_some};
use codes::cauchy::Cauchy;
use codes::poly::Poly;
use codes::scheme::{GoesWith, Rs, Scheme, Xor};
use sets::refusal::Refusal;
use sets::set::Set;
use sets::ticket::AnyTicket;
use std::process::Abort;
use std::test::*;
use stores::area::AreaStore;
use stores::shelves::TwoShelf;
use stores::store::UnitStore;

// What is done with the two sets, of any types: a closure takes one type each.
trait Exchange {
    fn run<V: Scheme, S: UnitStore, W: Scheme, T: UnitStore>(
        &self,
        rt: &impl Abort,
        one: &mut Set<V, S>,
        two: &mut Set<W, T>,
    ) -> Result<(), Fail>;
}

// The two sets, filled, with unit 2 missing.
fn with_two_sets<E: Exchange>(rt: &impl Abort, exchange: &E) -> Result<(), Fail> {
    let mut area = [0u8; 112];
    let mut low = [0u8; 112];
    let mut high = [0u8; 112];
    let mut one = Set::new(Xor.over(Cauchy::new()), AreaStore::new(&mut area, 4, 2));
    let mut two = Set::new(
        Rs.over(Poly::new()),
        TwoShelf::new(
            AreaStore::new(&mut low, 4, 4),
            AreaStore::new(&mut high, 4, 1),
        ),
    );
    let result = fill_and_run(rt, exchange, &mut one, &mut two);
    let _ = one.into_parts();
    let _ = two.into_parts();
    result
}

fn fill_and_run<E: Exchange, V: Scheme, S: UnitStore, W: Scheme, T: UnitStore>(
    rt: &impl Abort,
    exchange: &E,
    one: &mut Set<V, S>,
    two: &mut Set<W, T>,
) -> Result<(), Fail> {
    let data: [u8; 80] = mixed(9);
    assert_eq!(rt; one.fill(&data), Ok(()));
    assert_eq!(rt; two.fill(&data), Ok(()));
    assert_eq!(rt; one.lose(2), Ok(()));
    assert_eq!(rt; two.lose(2), Ok(()));
    exchange.run(rt, one, two)
}

// Opens a rebuild in both sets.
fn open_both<V: Scheme, S: UnitStore, W: Scheme, T: UnitStore>(
    one: &mut Set<V, S>,
    u: u8,
    two: &mut Set<W, T>,
    w: u8,
) -> Result<(AnyTicket, AnyTicket), Refusal> {
    let t = one.open(u)?;
    match two.open(w) {
        Ok(s) => Ok((AnyTicket::Open(t), AnyTicket::Open(s))),
        Err(e) => {
            let _ = one.give_up(AnyTicket::Open(t));
            Err(e)
        }
    }
}

#[derive(Clone, Copy, PartialEq, Eq, Debug)]
enum Kind {
    Open,
    Full,
}

// The kind, unit and count of a ticket.
fn numbers(ticket: &AnyTicket) -> (Kind, u8, u8) {
    match ticket {
        AnyTicket::Open(t) => (Kind::Open, t.unit(), t.count()),
        AnyTicket::Full(t) => (Kind::Full, t.unit(), t.count()),
    }
}

#[derive(Drop)]
struct OtherNumbers;

impl Exchange for OtherNumbers {
    fn run<V: Scheme, S: UnitStore, W: Scheme, T: UnitStore>(
        &self,
        rt: &impl Abort,
        one: &mut Set<V, S>,
        two: &mut Set<W, T>,
    ) -> Result<(), Fail> {
        assert_eq!(rt; two.lose(3), Ok(()));
        let (mine, other) = open_both(one, 2, two, 3)?;
        let (refused, other) = gather(one, other);
        let kept = numbers(&other);
        let given_up = one.give_up(other);
        let (half, mine) = gather(one, mine);
        let counted = numbers(&mine);
        let ended = one.give_up(mine);
        assert_eq!(rt; refused, None);
        assert_eq!(rt; kept, (Kind::Open, 3, 0));
        assert_eq!(rt; given_up, Err(Refusal::WrongTicket));
        assert_eq!(rt; half, Some((1, 2)));
        assert_eq!(rt; counted, (Kind::Open, 2, 1));
        assert_eq!(rt; ended, Ok(()));
        // no ticket is left of the rebuild in the second set, which stays open
        assert_eq!(rt; two.lose(1), Err(Refusal::RebuildOpen));
        assert_eq!(rt; one.lose(1), Ok(()));
        Ok(())
    }
}

// A ticket with other numbers is refused and comes back; given up, it is gone, and the set as it was.
#[test]
fn other_numbers_are_refused(rt: HostRuntime) -> Result<(), Fail> {
    with_two_sets(&rt, &OtherNumbers)
}

#[derive(Drop)]
struct SameNumbers;

impl Exchange for SameNumbers {
    fn run<V: Scheme, S: UnitStore, W: Scheme, T: UnitStore>(
        &self,
        rt: &impl Abort,
        one: &mut Set<V, S>,
        two: &mut Set<W, T>,
    ) -> Result<(), Fail> {
        let (mine, other) = open_both(one, 2, two, 2)?;
        let (taken, other) = gather(one, other);
        let (stale, mine) = gather(one, mine);
        let (crossed, mine) = gather(two, mine);
        let other = gather_some(one, other, 20);
        let mine = gather_some(two, mine, 20);
        let closed = (close(one, other), close(two, mine));
        assert_eq!(rt; taken, Some((1, 2)));
        assert_eq!(rt; stale, None);
        assert_eq!(rt; crossed, Some((1, 1)));
        assert_eq!(rt; closed, (Some(13), Some(20)));
        Ok(())
    }
}

// A ticket with the same numbers is taken, the set's own is stale then, and each set goes by its own list.
#[test]
fn same_numbers_are_taken(rt: HostRuntime) -> Result<(), Fail> {
    with_two_sets(&rt, &SameNumbers)
}

#[derive(Drop)]
struct KeptOverGiveUp;

impl Exchange for KeptOverGiveUp {
    fn run<V: Scheme, S: UnitStore, W: Scheme, T: UnitStore>(
        &self,
        rt: &impl Abort,
        one: &mut Set<V, S>,
        two: &mut Set<W, T>,
    ) -> Result<(), Fail> {
        let (kept, other) = open_both(one, 2, two, 2)?;
        let given_up = one.give_up(other);
        let (idle, kept) = gather(one, kept);
        let lost = one.lose(3);
        let (of_three, kept) = reopened(one, 3, kept);
        let (of_two, kept) = reopened(one, 2, kept);
        let ended = one.give_up(kept);
        assert_eq!(rt; given_up, Ok(()));
        assert_eq!(rt; idle, None);
        assert_eq!(rt; lost, Ok(()));
        assert_eq!(rt; of_three, (None, Ok(())));
        assert_eq!(rt; of_two, (Some((1, 1)), Err(Refusal::WrongTicket)));
        assert_eq!(rt; ended, Ok(()));
        Ok(())
    }
}

// Opens unit u, gathers by the ticket that was kept and gives the new ticket up: what is gathered and answered.
fn reopened<V: Scheme, S: UnitStore>(
    set: &mut Set<V, S>,
    u: u8,
    kept: AnyTicket,
) -> ((Option<(u8, u8)>, Result<(), Refusal>), AnyTicket) {
    match set.open(u) {
        Ok(new) => {
            let (half, kept) = gather(set, kept);
            let answer = set.give_up(AnyTicket::Open(new));
            ((half, answer), kept)
        }
        Err(e) => ((None, Err(e)), kept),
    }
}

// A ticket whose rebuild was given up is refused, and taken again once a rebuild has its numbers.
#[test]
fn kept_over_a_give_up(rt: HostRuntime) -> Result<(), Fail> {
    with_two_sets(&rt, &KeptOverGiveUp)
}

#[derive(Drop)]
struct WrongKind;

impl Exchange for WrongKind {
    fn run<V: Scheme, S: UnitStore, W: Scheme, T: UnitStore>(
        &self,
        rt: &impl Abort,
        one: &mut Set<V, S>,
        two: &mut Set<W, T>,
    ) -> Result<(), Fail> {
        let (mine, other) = open_both(one, 2, two, 2)?;
        let mine = gather_some(one, mine, 13);
        let other = gather_some(two, other, 13);
        let both = (numbers(&mine), numbers(&other));
        let (refused, other) = gather(one, other);
        let closed = close_in_turn(two, one, mine);
        let (next, other) = gather(two, other);
        let other = gather_some(two, other, 20);
        let idle = close_in_turn(one, two, other);
        assert_eq!(rt; both, ((Kind::Full, 2, 13), (Kind::Open, 2, 13)));
        assert_eq!(rt; refused, None);
        assert_eq!(rt; closed, (None, Some(13)));
        assert_eq!(rt; next, Some((8, 2)));
        assert_eq!(rt; idle, (None, Some(20)));
        Ok(())
    }
}

// What the first set answers to closing, and then the second; none where the ticket comes back or none is to close.
fn close_in_turn<V: Scheme, S: UnitStore, W: Scheme, T: UnitStore>(
    first: &mut Set<V, S>,
    second: &mut Set<W, T>,
    ticket: AnyTicket,
) -> (Option<u8>, Option<u8>) {
    match ticket {
        AnyTicket::Full(t) => match first.close(t) {
            Ok(n) => (Some(n), None),
            Err(t) => (None, close(second, AnyTicket::Full(t))),
        },
        open => (None, close(second, open)),
    }
}

// Unit and count alone do not match: 13 halves are the whole list in one set only. An idle set closes nothing.
#[test]
fn wrong_kind_is_refused(rt: HostRuntime) -> Result<(), Fail> {
    with_two_sets(&rt, &WrongKind)
}
