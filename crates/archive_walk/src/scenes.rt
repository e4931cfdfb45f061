// Scenes on one set, told line by line.
use crate::clerk::Step;
use crate::office::{Kind, run, run_with_old};
use crate::telling::{tell_run, unit_of};
use recordings::cutting::Part;
use std::io;

// All scenes, on sets of XOR+ over CAUCHY.
pub fn show_scenes(rt: &HostRuntime, part: Part) -> io::Result<()> {
    read_degraded(rt, part)?;
    change_without_parity(rt, part)?;
    read_from_ten(rt, part)?;
    hand_in_old_ticket(rt, part)
}

// Serves the steps and tells the run.
fn play(rt: &HostRuntime, part: Part, steps: &[Step]) -> io::Result<()> {
    let log = run(rt.alloc(), Kind::XorPlus, part.half_size(), steps)?;
    tell_run(rt, log.as_slice())
}

fn read_degraded(rt: &HostRuntime, part: Part) -> io::Result<()> {
    println!(rt; "\nA degraded read: the unit is missing, and is rebuilt for the reader alone.")?;
    let len = 2 * part.half_size();
    let steps = [
        Step::Fill(part.bytes),
        Step::Read(3, len),
        Step::Lose(3),
        Step::Read(3, len),
        Step::Read(4, len),
        Step::Read(3, len),
    ];
    play(rt, part, &steps)
}

// Unit 6 gets the bytes of unit 1. The standing parities carry the change, the missing one is rebuilt, and data is read back
// through it.
fn change_without_parity(rt: &HostRuntime, part: Part) -> io::Result<()> {
    println!(rt; "\nA change while a parity is missing: unit 13 learns of it when it is rebuilt.")?;
    let len = 2 * part.half_size();
    let steps = [
        Step::Fill(part.bytes),
        Step::Lose(13),
        Step::Change(6, unit_of(part.bytes, 1)),
        Step::Open(13),
        Step::GoOn(21),
        Step::Lose(4),
        Step::Lose(5),
        Step::Lose(6),
        Step::Read(1, len),
        Step::Read(2, len),
        Step::Read(3, len),
        Step::Read(4, len),
        Step::Read(5, len),
        Step::Read(6, len),
        Step::Read(7, len),
        Step::Read(8, len),
        Step::Read(9, len),
        Step::Read(10, len),
    ];
    play(rt, part, &steps)
}

fn read_from_ten(rt: &HostRuntime, part: Part) -> io::Result<()> {
    println!(rt; "\nTen units are enough, nine are not.")?;
    let len = 2 * part.half_size();
    let steps = [
        Step::Fill(part.bytes),
        Step::Lose(1),
        Step::Lose(2),
        Step::Lose(11),
        Step::Lose(14),
        Step::Read(1, len),
        Step::Lose(9),
        Step::Read(1, len),
        Step::Read(3, len),
        Step::Change(3, unit_of(part.bytes, 1)),
        Step::Open(1),
    ];
    play(rt, part, &steps)
}

fn hand_in_old_ticket(rt: &HostRuntime, part: Part) -> io::Result<()> {
    println!(rt; "\nAn old ticket of another set, and a rebuild given up.")?;
    let len = 2 * part.half_size();
    let steps = [
        Step::Fill(part.bytes),
        Step::Lose(3),
        Step::Open(3),
        Step::GoOn(2),
        Step::GoOnOld,
        Step::GiveUpOld,
        Step::Read(3, len),
        Step::GoOn(1),
        Step::GiveUp,
        Step::Open(3),
        Step::GoOn(14),
        Step::Read(3, len),
    ];
    let log = run_with_old(rt.alloc(), Kind::XorPlus, part.half_size(), &steps)?;
    tell_run(rt, log.as_slice())
}
