// The archive clerk: a party that works through a list of steps and holds the tickets.
use archive::order::{Order, Reply};
use archive::place::Place;
use archive::serve::Party;
use codes::cauchy::Cauchy;
use codes::scheme::{GoesWith, Rs};
use sets::set::Set;
use sets::ticket::{AnyTicket, Gathered};
use stores::area::AreaStore;

// What the clerk does next.
#[derive(Clone, Copy)]
pub enum Step<'a> {
    Fill(&'a [u8]),
    Lose(u8),
    // a unit, and the length of the place that it is read into
    Read(u8, usize),
    Change(u8, &'a [u8]),
    Open(u8),
    // so many times: gather with an open ticket, close with a full one
    GoOn(u8),
    GiveUp,
    // the same with the old ticket, which is another set's, once
    GoOnOld,
    GiveUpOld,
}

impl<'a> Step<'a> {
    // How many calls the step is.
    fn times(self) -> u8 {
        match self {
            Step::GoOn(n) => n.max(1),
            _ => 1,
        }
    }

    // The order of a step, with the ticket that it works with. Where it wants one and there is none, it is a read of no unit,
    // which is declined.
    fn order(self, ticket: Option<AnyTicket>) -> Order<'a> {
        match ticket {
            Some(t) => self.order_with(t),
            None => self.order_without(),
        }
    }

    fn order_with(self, ticket: AnyTicket) -> Order<'a> {
        match (self, ticket) {
            (Step::GiveUp | Step::GiveUpOld, t) => Order::GiveUp(t),
            (_, AnyTicket::Open(t)) => Order::Gather(t),
            (_, AnyTicket::Full(t)) => Order::Close(t),
        }
    }

    fn order_without(self) -> Order<'a> {
        match self {
            Step::Fill(bytes) => Order::Fill(bytes),
            Step::Lose(u) => Order::Lose(u),
            Step::Read(u, len) => Order::Read(u, Place::new(len)),
            Step::Change(u, bytes) => Order::Change(u, bytes),
            Step::Open(u) => Order::Open(u),
            Step::GoOn(_) | Step::GiveUp | Step::GoOnOld | Step::GiveUpOld => {
                Order::Read(0, Place::new(0))
            }
        }
    }
}

// How many calls the steps are.
pub fn count_calls(steps: &[Step]) -> usize {
    steps.iter().fold(0, |count, step| count.saturating_add(step.times() as usize))
}

// The ticket of a reply.
fn ticket_of(reply: Reply) -> Option<AnyTicket> {
    match reply {
        Reply::Opened(t) => Some(AnyTicket::Open(t)),
        Reply::Gathered(Gathered::More(_, t)) => Some(AnyTicket::Open(t)),
        Reply::Gathered(Gathered::Last(_, t)) => Some(AnyTicket::Full(t)),
        Reply::Kept(t) => Some(t),
        Reply::Done(_) | Reply::Read(_, _) | Reply::Declined(_) => None,
    }
}

// Ends a ticket at an empty set, where it stops nothing.
pub fn spend(ticket: AnyTicket) {
    let mut area = [0u8; 28];
    let mut set = Set::new(Rs.over(Cauchy::new()), AreaStore::new(&mut area, 1, 1));
    let _ = set.give_up(ticket);
    let (_scheme, _store) = set.into_parts();
}

// Works through its steps. It has one place for the ticket of this set, and one for an old ticket.
pub struct Clerk<'s, 'a> {
    steps: &'s [Step<'a>],
    // the next step, and how often it was made already
    next: usize,
    made: u8,
    own: Option<AnyTicket>,
    old: Option<AnyTicket>,
}

impl<'s, 'a> Clerk<'s, 'a> {
    pub fn new(steps: &'s [Step<'a>], old: Option<AnyTicket>) -> Clerk<'s, 'a> {
        Clerk {
            steps,
            next: 0,
            made: 0,
            own: None,
            old,
        }
    }

    // Keeps the ticket of a reply, if there is one, in the place that is free.
    fn keep(&mut self, reply: Option<Reply>) {
        let Some(ticket) = reply.and_then(ticket_of) else {
            return;
        };
        let place = if self.own.is_none() {
            &mut self.own
        } else {
            &mut self.old
        };
        if let Some(spare) = place.replace(ticket) {
            spend(spare);
        }
    }

    // The next step; behind the last one it is to go on.
    fn next_step(&mut self) -> Step<'a> {
        let step = self.steps.get(self.next).copied().unwrap_or(Step::GoOn(1));
        self.made = self.made.saturating_add(1);
        if self.made >= step.times() {
            self.made = 0;
            self.next = self.next.saturating_add(1);
        }
        step
    }

    // The ticket that the step works with.
    fn ticket_for(&mut self, step: Step<'a>) -> Option<AnyTicket> {
        match step {
            Step::GoOn(_) | Step::GiveUp => self.own.take(),
            Step::GoOnOld | Step::GiveUpOld => self.old.take(),
            _ => None,
        }
    }

    // The work is over: the ticket of this set, if it is still there. An old one is spent.
    pub fn leave(self) -> Option<AnyTicket> {
        let Clerk {
            steps: _,
            next: _,
            made: _,
            own,
            old,
        } = self;
        if let Some(t) = old {
            spend(t);
        }
        own
    }
}

impl<'s, 'a> Party<'a> for Clerk<'s, 'a> {
    fn turn(&mut self, last: Option<Reply>) -> Order<'a> {
        self.keep(last);
        let step = self.next_step();
        let ticket = self.ticket_for(step);
        step.order(ticket)
    }

    fn end(&mut self, last: Option<Reply>) {
        self.keep(last);
    }
}
