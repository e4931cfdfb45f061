// One recording through the archive: it is cut into sets, boxes are lost, their units are rebuilt over a slow link and read back.
// The recording is made by a fixed rule, or is the file that is named as the argument.

#![tactic(auto)]

mod boxes;
mod clerk;
mod office;
mod recording;
mod refusals;
mod scenes;
mod tally;
mod telling;
mod walk;

use recording::{made, pad};
use recordings::cutting::padding;
use std::{env, fs, io};
use walk::show_recording;

fn main(rt: HostRuntime) -> io::Result<()> {
    keep_recording(&rt)
}

fn keep_recording(rt: &HostRuntime) -> io::Result<()> {
    let mut bytes = take_recording(rt)?;
    let len = bytes.len();
    pad(&mut bytes, padding(len))?;
    show_recording(rt, len, bytes.as_slice())
}

fn take_recording(rt: &HostRuntime) -> io::Result<Vec<u8>> {
    let mut words = env::args(rt)?;
    match words.nth(1) {
        Some(path) => fs::read(rt, path),
        None => Ok(made(rt.alloc())?),
    }
}
