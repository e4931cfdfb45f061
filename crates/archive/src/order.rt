// What a party orders of a set, what it is told, and how both are noted in a log.
use crate::place::Place;
use sets::refusal::Refusal;
use sets::ticket::{AnyTicket, FullTicket, Gathered, OpenTicket};

// A call of a set. The party owns the tickets that it hands in, its own or another set's.
pub enum Order<'a> {
    Fill(&'a [u8]),
    Lose(u8),
    Read(u8, Place),
    Change(u8, &'a [u8]),
    Open(u8),
    Gather(OpenTicket),
    Close(FullTicket),
    GiveUp(AnyTicket),
}

// The answer to a call. The party owns the tickets that it is handed.
pub enum Reply {
    // accepted, with a number
    Done(u8),
    // the halves fetched, and the place with what was read
    Read(u8, Place),
    Opened(OpenTicket),
    Gathered(Gathered),
    Declined(Refusal),
    // declined since the ticket does not match, which comes back
    Kept(AnyTicket),
}

// A call by its numbers and bytes.
#[derive(Clone, Copy)]
pub enum Asked<'a> {
    Fill(&'a [u8]),
    Lose(u8),
    Read(u8, Place),
    Change(u8, &'a [u8]),
    Open(u8),
    Gather(u8, u8),
    Close(u8, u8),
    // by the ticket's kind, unit and count, as a log prints them
    GiveUpOpen(u8, u8),
    GiveUpFull(u8, u8),
}

// An answer by its numbers and bytes.
#[derive(Clone, Copy)]
pub enum Told {
    Number(u8),
    Read(u8, Place),
    Opened(u8, u8),
    More((u8, u8), u8, u8),
    Last((u8, u8), u8, u8),
    // with the number of the refusal; a log that is lent may hold any number before
    Declined(u8),
}

// A line of a log: a call and its answer.
#[derive(Clone, Copy)]
pub struct Line<'a> {
    pub asked: Asked<'a>,
    pub told: Told,
}
