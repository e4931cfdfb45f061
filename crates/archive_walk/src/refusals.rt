// A refusal of each number.
use crate::clerk::Step;
use crate::office::{Kind, run_with_old};
use crate::telling::{Meaning, print_asked};
use archive::order::{Line, Told};
use recordings::cutting::Part;
use std::io;
use stores::area::{AreaStore, suits};
use stores::store::UnitStore;

pub fn show_refusals(rt: &HostRuntime, part: Part) -> io::Result<()> {
    println!(rt; "\nThe refusals of a set:")?;
    show_set_refusals(rt, part)?;
    println!(rt; "Those of a store's read:")?;
    show_store_refusals(rt)?;
    println!(rt; "Those of an area's measures:")?;
    show_suits(rt, 28, 0, 1)?;
    show_suits(rt, 14_336, 512, 5)?;
    show_suits(rt, 14_335, 512, 4)
}

// A run in which each number of a set is met once.
fn show_set_refusals(rt: &HostRuntime, part: Part) -> io::Result<()> {
    let half = part.half_size();
    let steps = [
        Step::Fill(part.bytes),
        Step::Lose(15),
        Step::Read(1, 3),
        Step::Lose(1),
        Step::Lose(2),
        Step::Lose(3),
        Step::Lose(4),
        Step::Lose(5),
        Step::Read(1, 2 * half),
        Step::Fill(part.bytes),
        Step::Lose(1),
        Step::Open(1),
        Step::Lose(2),
        Step::GoOnOld,
        Step::GiveUp,
        Step::Open(2),
    ];
    let log = run_with_old(rt.alloc(), Kind::NonXorPoly, half, &steps)?;
    for line in log.as_slice() {
        show_declined(rt, line)?;
    }
    Ok(())
}

// A line of a log, if its call was declined.
fn show_declined(rt: &impl Print, line: &Line) -> io::Result<()> {
    if let Told::Declined(number) = line.told {
        print!(rt; "  {number:>2}  ")?;
        print_asked(rt, &line.asked)?;
        println!(rt; ": {}", Meaning(number))?;
    }
    Ok(())
}

// Half 3 of a unit, and half 1 of a missing one.
fn show_store_refusals(rt: &impl Print) -> io::Result<()> {
    let mut area = [0u8; 28];
    let store = AreaStore::new(&mut area, 1, 1);
    show_store_read(rt, &store, 1, 3)?;
    show_store_read(rt, &store, 1, 1)
}

fn show_store_read<S: UnitStore>(rt: &impl Print, store: &S, unit: u8, half: u8) -> io::Result<()> {
    let mut place = [0u8; 1];
    match store.read(unit, half, &mut place) {
        Ok(()) => println!(rt; "      read half {unit}.{half}: done"),
        Err(e) => println!(rt; "  {:>2}  read half {unit}.{half}: {e}", e.code()),
    }
}

fn show_suits(rt: &impl Print, len: usize, size: usize, hop: usize) -> io::Result<()> {
    match suits(len, size, hop) {
        Ok(()) => println!(rt; "      {len} bytes suit"),
        Err(e) => println!(rt;
            "  {:>2}  {len} bytes, half size {size}, hop length {hop}: {e}",
            e.code()
        ),
    }
}
