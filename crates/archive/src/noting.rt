// Orders and replies as they are noted.
ghost use Rattle.std.specs.Prelude.{◌≡◌, min, replicate};
ghost use Rattle.archive.specs.Logs.{held, call_of, answer_of, asked_call, told_answer};

use crate::order::{Asked, Order, Reply, Told};
use crate::place::Place;
use sets::refusal::Refusal;
use sets::ticket::{AnyTicket, Gathered};

impl Place {
    // Zeros, as many as asked for but at most 1,024.
    pub fn new(len: usize) -> Place
        ensures { held result ≡ replicate (min len 1024) 0 }
    {
        Place {
            bytes: [0; 1024],
            len: len.min(1024),
        }
    }

    pub fn bytes(&self) -> &[u8]
        ensures { result.now ≡ held self.now }
    {
        &self.bytes[..self.len]
    }
}

impl<'a> Order<'a> {
    // The order by its numbers and bytes.
    pub fn noted(&self) -> Asked<'a>
        ensures { asked_call result ≡ call_of self.now }
    {
        match self {
            Order::Fill(bytes) => Asked::Fill(bytes),
            Order::Lose(u) => Asked::Lose(*u),
            Order::Read(u, place) => Asked::Read(*u, *place),
            Order::Change(u, bytes) => Asked::Change(*u, bytes),
            Order::Open(u) => Asked::Open(*u),
            Order::Gather(t) => Asked::Gather(t.unit(), t.count()),
            Order::Close(t) => Asked::Close(t.unit(), t.count()),
            Order::GiveUp(AnyTicket::Open(t)) => Asked::GiveUpOpen(t.unit(), t.count()),
            Order::GiveUp(AnyTicket::Full(t)) => Asked::GiveUpFull(t.unit(), t.count()),
        }
    }
}

impl Reply {
    // The reply by its numbers and bytes.
    pub fn noted(&self) -> Told
        ensures { told_answer result ≡ answer_of self.now }
    {
        match self {
            Reply::Done(n) => Told::Number(*n),
            Reply::Read(n, place) => Told::Read(*n, *place),
            Reply::Opened(t) => Told::Opened(t.unit(), t.count()),
            Reply::Gathered(Gathered::More(half, t)) => Told::More(*half, t.unit(), t.count()),
            Reply::Gathered(Gathered::Last(half, t)) => Told::Last(*half, t.unit(), t.count()),
            Reply::Declined(e) => Told::Declined(e.number()),
            Reply::Kept(_) => Told::Declined(Refusal::WrongTicket.number()),
        }
    }
}
