// Lost boxes. A box holds one unit of every set: box 3 has unit 3 of each.
use crate::clerk::Step;
use crate::office::{Kind, run};
use crate::tally::Tally;
use crate::telling::{count_same, unit_of};
use archive::order::{Asked, Line, Told};
use codes::fetch::{fetch_list, standing_without};
use recordings::cutting::Part;
use recordings::link::link_ms;
use std::alloc::{AllocError, Global};
use std::io;

// Rebuilds the unit of a lost box for one set, reads data back through it, and says what was fetched.
pub fn rebuild_unit(rt: &HostRuntime, kind: Kind, lost: u8, part: Part) -> io::Result<Tally> {
    let log = run_rebuild(rt.alloc(), kind, lost, part)?;
    let lines = log.as_slice();
    let tally = Tally::of_rebuild(count_fetched(lines), part.half_size());
    print!(rt; "  set {}: {} halves:", part.number, tally.halves)?;
    print_fetched(rt, lines)?;
    print_link(rt, tally)?;
    print_reads(rt, lost, part, lines)?;
    Ok(tally)
}

// Fills, loses the unit, opens, gathers each listed half, closes, and reads back.
fn run_rebuild<'a>(
    heap: Global,
    kind: Kind,
    lost: u8,
    part: Part<'a>,
) -> Result<Vec<Line<'a>>, AllocError> {
    let half = part.half_size();
    let fill = Step::Fill(part.bytes);
    let lose = Step::Lose(lost);
    let open = Step::Open(lost);
    let rest = Step::GoOn(list_length(kind, lost).saturating_add(1));
    if lost <= 10 {
        let read = Step::Read(lost, 2 * half);
        return run(heap, kind, half, &[fill, lose, open, rest, read]);
    }
    // a parity cannot be read: units 1 and 2 are lost, and unit 1 is read through it
    let (one, two) = (Step::Lose(1), Step::Lose(2));
    let read = Step::Read(1, 2 * half);
    run(heap, kind, half, &[fill, lose, open, rest, one, two, read])
}

// How many halves are fetched for the lost unit, if all others stand.
fn list_length(kind: Kind, lost: u8) -> u8 {
    let list = fetch_list(kind.version(), &standing_without(&[lost]), lost);
    list.halves().len().min(20) as u8
}

// The half that a line says was fetched.
fn fetched(line: &Line) -> Option<(u8, u8)> {
    match line.told {
        Told::More(half, _, _) | Told::Last(half, _, _) => Some(half),
        _ => None,
    }
}

fn count_fetched(log: &[Line]) -> u32 {
    let count = log.iter().filter(|line| fetched(line).is_some()).count();
    u32::try_from(count).unwrap_or(u32::MAX)
}

fn print_fetched(rt: &impl Print, log: &[Line]) -> io::Result<()> {
    for (unit, half) in log.iter().filter_map(fetched) {
        print!(rt; " {unit}.{half}")?;
    }
    println!(rt; "")
}

fn print_link(rt: &impl Print, tally: Tally) -> io::Result<()> {
    let Tally {
        bytes,
        rs_bytes,
        ..
    } = tally;
    println!(rt;
        "    {bytes} bytes in {} ms, Reed-Solomon {rs_bytes} bytes in {} ms",
        link_ms(bytes),
        link_ms(rs_bytes)
    )
}

// What the reads of the run gave, against the recording.
fn print_reads(rt: &impl Print, lost: u8, part: Part, log: &[Line]) -> io::Result<()> {
    for line in log {
        if let (Asked::Read(u, _), Told::Read(_, place)) = (line.asked, line.told) {
            let bytes = place.bytes();
            let same = count_same(bytes, unit_of(part.bytes, u));
            print_way(rt, lost, u)?;
            println!(rt; ": {same} of {} bytes are the recording's", bytes.len())?;
        }
    }
    Ok(())
}

// How unit u was read after the rebuild of the lost one.
fn print_way(rt: &impl Print, lost: u8, u: u8) -> io::Result<()> {
    if lost <= 10 {
        print!(rt; "    unit {u} reads back")
    } else {
        print!(rt; "    with units 1 and 2 lost, unit {u} reads back through unit {lost}")
    }
}
