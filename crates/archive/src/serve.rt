// A call that makes a set and serves a party: any list of calls, with any arguments and any tickets.
ghost use Rattle.std.specs.Prelude.{◌≡◌};
ghost use Rattle.sets.specs.Meaning.{make, view, done, counted};
ghost use Rattle.archive.specs.Law.{ArchiveLaw, RebuiltOwn};
ghost use Rattle.archive.specs.Logs.{held, call_of, answer_of, Turn, Logged};
ghost use Rattle.sets.specs.Calls.Call.{Fill, Change, Read};

use crate::order::{Line, Order, Reply};
use crate::place::Place;
use codes::scheme::Scheme;
use sets::refusal::Refusal;
use sets::set::Set;
use sets::ticket::AnyTicket;
use stores::store::UnitStore;

// Whoever orders calls. It holds its tickets itself, and may hold those of other sets.
pub trait Party<'a> {
    // Is told the last reply, if a call was made, and gives the next order.
    fn turn(&mut self, last: Option<Reply>) -> Order<'a>;

    // Is told the last reply of all.
    fn end(&mut self, last: Option<Reply>);
}

// Makes a new set of the scheme and the store and serves the party, one call for each line of the log, in which the calls and their
// answers are noted.
pub fn serve<'a, V: Scheme, S: UnitStore, P: Party<'a>>(
    scheme: V,
    store: S,
    party: &mut P,
    log: &mut [Line<'a>],
) -> Set<V, S>
    ensures law { ArchiveLaw (make V.Scheme scheme) (S.UnitStore.model store).size }
    ensures own { RebuiltOwn (make V.Scheme scheme) (S.UnitStore.model store).size }
    ensures book { Logged (make V.Scheme scheme) (S.UnitStore.model store).size log.new (view V.Scheme S.UnitStore result) }
{
    let mut set = Set::new(scheme, store);
    let mut last = None;
    for line in log.iter_mut() {
        let order = party.turn(last);
        let asked = order.noted();
        let reply = make_call(&mut set, order);
        *line = Line {
            asked,
            told: reply.noted(),
        };
        last = Some(reply);
    }
    party.end(last);
    set
}

// Makes the call that is ordered.
pub fn make_call<V: Scheme, S: UnitStore>(set: &mut Set<V, S>, order: Order) -> Reply
    ensures { Turn (view V.Scheme S.UnitStore set.old) (call_of order.entry) (answer_of result) (view V.Scheme S.UnitStore set.new) }
{
    match order {
        Order::Fill(bytes) => fill(set, bytes),
        Order::Lose(u) => Reply::from(set.lose(u)),
        Order::Read(u, place) => read(set, u, place),
        Order::Change(u, bytes) => change(set, u, bytes),
        Order::Open(u) => match set.open(u) {
            Ok(t) => Reply::Opened(t),
            Err(e) => Reply::Declined(e),
        },
        Order::Gather(t) => match set.gather(t) {
            Ok(gathered) => Reply::Gathered(gathered),
            Err(t) => Reply::Kept(AnyTicket::Open(t)),
        },
        Order::Close(t) => match set.close(t) {
            Ok(n) => Reply::Done(n),
            Err(t) => Reply::Kept(AnyTicket::Full(t)),
        },
        Order::GiveUp(t) => Reply::from(set.give_up(t)),
    }
}

fn fill<V: Scheme, S: UnitStore>(set: &mut Set<V, S>, bytes: &[u8]) -> Reply
    ensures { Turn (view V.Scheme S.UnitStore set.old) (Fill bytes.now) (answer_of result) (view V.Scheme S.UnitStore set.new) }
{
    Reply::from(set.fill(bytes))
}

fn change<V: Scheme, S: UnitStore>(set: &mut Set<V, S>, u: u8, bytes: &[u8]) -> Reply
    ensures { Turn (view V.Scheme S.UnitStore set.old) (Change u bytes.now) (answer_of result) (view V.Scheme S.UnitStore set.new) }
{
    Reply::from(set.change(u, bytes))
}

fn read<V: Scheme, S: UnitStore>(set: &Set<V, S>, u: u8, place: Place) -> Reply
    ensures { Turn (view V.Scheme S.UnitStore set.now) (Read u (held place)) (answer_of result) (view V.Scheme S.UnitStore set.now) }
{
    let mut place = place;
    let len = place.len;
    match set.read(u, &mut place.bytes[0..len]) {
        Ok(n) => Reply::Read(n, place),
        Err(e) => Reply::Declined(e),
    }
}

// A fill, a loss and a giving up are answered with 0.
impl From<Result<(), Refusal>> for Reply {
    ghost from_gives = { λ answer reply. answer_of reply ≡ done answer };

    fn from(answer: Result<(), Refusal>) -> Reply {
        Reply::from(answer.map(|()| 0))
    }
}

// A change is answered with a number.
impl From<Result<u8, Refusal>> for Reply {
    ghost from_gives = { λ answer reply. answer_of reply ≡ counted answer };

    fn from(answer: Result<u8, Refusal>) -> Reply {
        match answer {
            Ok(number) => Reply::Done(number),
            Err(e) => Reply::Declined(e),
        }
    }
}
