// Rebuilding a lost unit from its opening to its closing.
use codes::scheme::Scheme;
use sets::refusal::Refusal;
use sets::set::Set;
use sets::ticket::{AnyTicket, Gathered};
use stores::store::UnitStore;

// Opens the rebuild of unit u, gathers its list and closes it: the number of halves, if closing is not refused.
pub(crate) fn rebuild<V: Scheme, S: UnitStore>(
    set: &mut Set<V, S>,
    u: u8,
) -> Result<Option<u8>, Refusal> {
    let opened = AnyTicket::Open(set.open(u)?);
    let gathered = gather_some(set, opened, 20);
    Ok(close(set, gathered))
}

// Gathers up to so many halves.
pub(crate) fn gather_some<V: Scheme, S: UnitStore>(
    set: &mut Set<V, S>,
    start: AnyTicket,
    n: usize,
) -> AnyTicket {
    let mut ticket = start;
    for _ in 0..n {
        let (_, next) = gather(set, ticket);
        ticket = next;
    }
    ticket
}

// Gathers a half by an open ticket; none, and the same ticket, where there is nothing to gather.
pub(crate) fn gather<V: Scheme, S: UnitStore>(
    set: &mut Set<V, S>,
    ticket: AnyTicket,
) -> (Option<(u8, u8)>, AnyTicket) {
    match ticket {
        AnyTicket::Open(t) => match set.gather(t) {
            Ok(Gathered::More(half, t)) => (Some(half), AnyTicket::Open(t)),
            Ok(Gathered::Last(half, t)) => (Some(half), AnyTicket::Full(t)),
            Err(t) => (None, AnyTicket::Open(t)),
        },
        full => (None, full),
    }
}

// Closes by a full ticket and answers the number of halves; a ticket that is refused or open is given up.
pub(crate) fn close<V: Scheme, S: UnitStore>(set: &mut Set<V, S>, ticket: AnyTicket) -> Option<u8> {
    let ticket = match ticket {
        AnyTicket::Full(t) => match set.close(t) {
            Ok(n) => return Some(n),
            Err(t) => AnyTicket::Full(t),
        },
        open => open,
    };
    let _ = set.give_up(ticket);
    None
}
