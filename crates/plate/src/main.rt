// Reads one line, and prints how the unit that it names is encoded.

#![tactic(auto)]

mod answer;
mod input;
mod line;
mod page;
mod request;

use answer::answer;
use input::read_line;
use std::io;

fn main(rt: HostRuntime) -> io::Result<()> {
    let line = read_line(&mut rt.stdin());
    rt.print(answer(rt.alloc(), line.as_slice())?)
}

#[cfg(test)]
mod tests;
