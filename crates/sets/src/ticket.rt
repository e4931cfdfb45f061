// Tickets of a rebuild. They come only from `open` and `gather`, cannot be copied or let go, and end in `close` or `give_up`.
ghost use Rattle.std.specs.Prelude.{◌≡◌};
ghost use Rattle.sets.specs.Calls.{Kind, right_at, open_ticket, full_ticket};

use std::marker::PhantomData;

// How far the rebuild of a ticket is.
pub trait Stage {
    ghost kind: { Kind };

    // Whether it is that of a rebuild with so many of its listed halves gathered.
    fn is_at(count: u8, listed: u8) -> bool
        ensures { result ≡ right_at kind count listed };
}

// The list is not gathered yet.
pub struct Open;

impl Stage for Open {
    ghost kind = { open_ticket };

    fn is_at(count: u8, listed: u8) -> bool {
        count < listed
    }
}

// The whole list is gathered.
pub struct Full;

impl Stage for Full {
    ghost kind = { full_ticket };

    fn is_at(count: u8, listed: u8) -> bool {
        count == listed
    }
}

pub struct Ticket<K> {
    pub(crate) unit: u8,
    pub(crate) count: u8,
    pub(crate) stage: PhantomData<K>,
}

pub type OpenTicket = Ticket<Open>;

pub type FullTicket = Ticket<Full>;

// What a gather gives: the unit and the half that were fetched, and the ticket with one more counted.
pub enum Gathered {
    More((u8, u8), OpenTicket),
    Last((u8, u8), FullTicket),
}

// Either ticket, to be given up.
pub enum AnyTicket {
    Open(OpenTicket),
    Full(FullTicket),
}

impl<K> Ticket<K> {
    pub(crate) fn new(unit: u8, count: u8) -> Ticket<K>
        ensures unit { result.unit ≡ unit }
        ensures count { result.count ≡ count }
    {
        Ticket {
            unit,
            count,
            stage: PhantomData,
        }
    }

    // Ends it, and says how many halves were gathered.
    pub(crate) fn end(self) -> u8
        ensures { result ≡ self.count }
    {
        let Ticket {
            unit: _,
            count,
            stage: _,
        } = self;
        count
    }

    // The unit under rebuild.
    pub fn unit(&self) -> u8
        ensures { result ≡ self.now.unit }
    {
        self.unit
    }

    // How many halves are gathered.
    pub fn count(&self) -> u8
        ensures { result ≡ self.now.count }
    {
        self.count
    }
}
