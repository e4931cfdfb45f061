// What is printed of a log.
use archive::order::{Asked, Line, Told};
use sets::refusal::Refusal;
use std::{fmt, io};

// What a refusal of a set means, by the number that a log has.
#[derive(Clone, Copy)]
pub struct Meaning(pub u8);

impl fmt::Display for Meaning {
    fn fmt<W: fmt::Write>(&self, f: &mut fmt::Formatter<W>) -> fmt::Result {
        let refusals = [
            Refusal::NoUnit,
            Refusal::WrongLength,
            Refusal::TooFew,
            Refusal::RebuildOpen,
            Refusal::WrongTicket,
            Refusal::Stands,
        ];
        match refusals.iter().find(|refusal| refusal.number() == self.0) {
            Some(refusal) => write!(f, "{refusal}"),
            None => f.write_str("no refusal of a set"),
        }
    }
}

// How many bytes of the two are the same, position by position.
pub fn count_same(one: &[u8], other: &[u8]) -> usize {
    one.iter().zip(other).filter(|(a, b)| a == b).count()
}

// The bytes of data unit u, from data of ten units in a row; nothing for another number.
pub fn unit_of(data: &[u8], u: u8) -> &[u8] {
    let size = data.len() / 10;
    if size == 0 || u == 0 {
        return &[];
    }
    data.chunks(size).nth(u as usize - 1).unwrap_or(&[])
}

// Tells a run line by line. It knows what the data units should hold: the bytes of the last accepted fill, and in one unit
// those of the last accepted change since.
#[derive(Clone, Copy)]
struct Teller<'a> {
    filled: &'a [u8],
    changed: Option<(u8, &'a [u8])>,
    gathering: bool,
}

// Prints what was asked and told, one line for each call and one for gathers in a row.
pub fn tell_run<'a>(rt: &impl Print, log: &[Line<'a>]) -> io::Result<()> {
    let mut teller = Teller {
        filled: &[],
        changed: None,
        gathering: false,
    };
    for line in log {
        teller = teller.tell(rt, line)?;
    }
    Ok(())
}

impl<'a> Teller<'a> {
    fn tell(self, rt: &impl Print, line: &Line<'a>) -> io::Result<Teller<'a>> {
        match line.told {
            Told::More(half, _, _) | Told::Last(half, _, _) => self.tell_half(rt, half),
            _ => {
                self.end_gathers(rt)?;
                self.tell_call(rt, line)?;
                Ok(self.after(line))
            }
        }
    }

    fn tell_half(self, rt: &impl Print, half: (u8, u8)) -> io::Result<Teller<'a>> {
        if !self.gathering {
            print!(rt; "  gather:")?;
        }
        print!(rt; " {}.{}", half.0, half.1)?;
        Ok(Teller {
            gathering: true,
            ..self
        })
    }

    fn end_gathers(self, rt: &impl Print) -> io::Result<()> {
        if self.gathering {
            println!(rt; "")
        } else {
            Ok(())
        }
    }

    // What the units should hold after an accepted fill or change.
    fn after(self, line: &Line<'a>) -> Teller<'a> {
        let teller = Teller {
            gathering: false,
            ..self
        };
        match (line.asked, line.told) {
            (Asked::Fill(bytes), Told::Number(_)) => Teller {
                filled: bytes,
                changed: None,
                ..teller
            },
            (Asked::Change(u, bytes), Told::Number(_)) => Teller {
                changed: Some((u, bytes)),
                ..teller
            },
            _ => teller,
        }
    }

    // What a data unit should hold.
    fn expected(self, u: u8) -> &'a [u8] {
        match self.changed {
            Some((w, news)) if w == u => news,
            _ => unit_of(self.filled, u),
        }
    }

    fn tell_call(self, rt: &impl Print, line: &Line<'a>) -> io::Result<()> {
        print!(rt; "  ")?;
        print_asked(rt, &line.asked)?;
        match (line.asked, line.told) {
            (_, Told::Number(n)) => print_number(rt, &line.asked, n),
            (Asked::Read(u, _), Told::Read(n, place)) => {
                let bytes = place.bytes();
                let right = count_same(bytes, self.expected(u));
                println!(rt;
                    ": {n} halves fetched, {right} of {} bytes are right",
                    bytes.len()
                )
            }
            (_, Told::Opened(u, n)) => println!(rt; ": a ticket with unit {u} and count {n}"),
            (_, Told::Declined(n)) => println!(rt; ": declined with {n}, {}", Meaning(n)),
            _ => println!(rt; ""),
        }
    }
}

// A call, as what the clerk does: sentences of this program, so no `Display` of the library's type.
pub fn print_asked(rt: &impl Print, asked: &Asked) -> io::Result<()> {
    match asked {
        Asked::Fill(bytes) => print!(rt; "fill with {} bytes", bytes.len()),
        Asked::Lose(u) => print!(rt; "lose unit {u}"),
        Asked::Read(u, place) => print_sized(rt, "read", *u, "into", place.bytes().len()),
        Asked::Change(u, bytes) => print_sized(rt, "change", *u, "with", bytes.len()),
        Asked::Open(u) => print!(rt; "open the rebuild of unit {u}"),
        Asked::Gather(u, n) => print_ticket(rt, "gather by a ticket", *u, *n),
        Asked::Close(u, n) => print_ticket(rt, "close by a ticket", *u, *n),
        Asked::GiveUpOpen(u, n) => print_ticket(rt, "give up a ticket", *u, *n),
        Asked::GiveUpFull(u, n) => print_ticket(rt, "give up a full ticket", *u, *n),
    }
}

fn print_sized(rt: &impl Print, does: &str, u: u8, how: &str, len: usize) -> io::Result<()> {
    print!(rt; "{does} unit {u} {how} {len} bytes")
}

fn print_ticket(rt: &impl Print, does: &str, u: u8, count: u8) -> io::Result<()> {
    print!(rt; "{does} with unit {u} and count {count}")
}

// The number of an accepted call, as what it counts.
fn print_number(rt: &impl Print, asked: &Asked, n: u8) -> io::Result<()> {
    match asked {
        Asked::Change(_, _) => println!(rt; ": {n} units put"),
        Asked::Close(_, _) => println!(rt; ": done, {n} halves gathered"),
        _ => println!(rt; ": done"),
    }
}
