// The walk: every scheme, every lost box, every set.
use crate::boxes::rebuild_unit;
use crate::office::Kind;
use crate::refusals::show_refusals;
use crate::scenes::show_scenes;
use crate::tally::Tally;
use recordings::cutting::{FULL_SET, Part, set_count};
use recordings::link::link_ms;
use std::io;

const KINDS: [Kind; 5] = [
    Kind::Rs,
    Kind::Xor,
    Kind::XorPlus,
    Kind::NonXor,
    Kind::NonXorPoly,
];

// The boxes that are lost, one at a time; the last one holds a parity.
const LOST: [u8; 4] = [2, 8, 10, 12];

// The whole walk over a recording of `len` bytes that is padded with zeros to `bytes`.
pub fn show_recording(rt: &HostRuntime, len: usize, bytes: &[u8]) -> io::Result<()> {
    show_sets(rt, len, bytes)?;
    let tallies = KINDS.try_map(|kind| show_kind(rt, kind, bytes))?;
    let part = last_part(bytes);
    show_scenes(rt, part)?;
    show_refusals(rt, part)?;
    println!(rt; "\nIn all, for the lost boxes above:")?;
    for (kind, tally) in KINDS.iter().zip(&tallies) {
        show_total(rt, *kind, *tally)?;
    }
    Ok(())
}

// How the recording is cut.
fn show_sets(rt: &HostRuntime, len: usize, bytes: &[u8]) -> io::Result<()> {
    println!(rt;
        "A recording of {len} bytes, kept in sets of at most {FULL_SET} bytes: {} in all.",
        set_count(bytes.len())
    )?;
    println!(rt;
        "Zeros behind it, up to a multiple of 20 bytes: {}.",
        bytes.len().saturating_sub(len)
    )?;
    for (i, bytes) in bytes.chunks(FULL_SET).enumerate() {
        let part = part_at(i, bytes);
        println!(rt;
            "  set {}: {} bytes, ten data units of two halves of {} bytes",
            part.number,
            part.bytes.len(),
            part.half_size()
        )?;
    }
    println!(rt; "Fourteen boxes hold one unit of every set each, boxes 11 to 14 the parities.")?;
    println!(rt;
        "The link carries 2 Mbit in a second: 250 bytes in a millisecond. Times are rounded up."
    )?;
    println!(rt; "A fetched half is written as unit.half.")
}

fn part_at<'a>(i: usize, bytes: &'a [u8]) -> Part<'a> {
    Part {
        number: i.saturating_add(1),
        bytes,
    }
}

// The last set; one without bytes if there is none.
fn last_part(bytes: &[u8]) -> Part<'_> {
    match bytes.chunks(FULL_SET).enumerate().last() {
        Some((i, bytes)) => part_at(i, bytes),
        None => part_at(0, &[]),
    }
}

// Each lost box in turn, under one scheme.
fn show_kind(rt: &HostRuntime, kind: Kind, bytes: &[u8]) -> io::Result<Tally> {
    println!(rt; "\n{kind}, {}", kind.place())?;
    let mut tally = Tally::default();
    for lost in LOST {
        println!(rt; "box {lost} is lost")?;
        tally = tally + show_box(rt, kind, lost, bytes)?;
    }
    Ok(tally)
}

// The units of a lost box, set by set.
fn show_box(rt: &HostRuntime, kind: Kind, lost: u8, bytes: &[u8]) -> io::Result<Tally> {
    let mut tally = Tally::default();
    for (i, bytes) in bytes.chunks(FULL_SET).enumerate() {
        tally = tally + rebuild_unit(rt, kind, lost, part_at(i, bytes))?;
    }
    Ok(tally)
}

fn show_total(rt: &impl Print, kind: Kind, tally: Tally) -> io::Result<()> {
    let Tally {
        halves,
        bytes,
        rs_halves,
        rs_bytes,
    } = tally;
    println!(rt;
        "  {kind:<18}  {halves} halves, {bytes} bytes, {} ms; Reed-Solomon {rs_halves} halves, {rs_bytes} bytes, {} ms",
        link_ms(bytes),
        link_ms(rs_bytes)
    )
}
