// A walk through one set: ten data units are encoded under every version and code that go together, the fourteen units are
// printed, for each lost unit the halves that are fetched, and whether lost units are rebuilt as they were.

#![tactic(auto)]

mod data;
mod lost;
mod show;

use codes::cauchy::Cauchy;
use codes::poly::Poly;
use codes::scheme::{GoesWith, NonXor, Rs, Xor, XorPlus};
use figures::figure_count;
use show::show_scheme;
use std::io;

fn main(rt: HostRuntime) -> io::Result<()> {
    println!(rt;
        "One set of ten data units, two bytes in each half, encoded under every version and code."
    )?;
    println!(rt;
        "A unit is shown as its first half and its second half; a half to fetch as unit.half."
    )?;
    println!(rt;
        "Worked figures that are proved of the definitions: {}.",
        figure_count()
    )?;
    show_scheme(&rt, "RS CAUCHY", &Rs.over(Cauchy::new()))?;
    show_scheme(&rt, "RS POLY", &Rs.over(Poly::new()))?;
    show_scheme(&rt, "XOR CAUCHY", &Xor.over(Cauchy::new()))?;
    show_scheme(&rt, "XOR POLY", &Xor.over(Poly::new()))?;
    show_scheme(&rt, "XOR+ CAUCHY", &XorPlus.over(Cauchy::new()))?;
    show_scheme(&rt, "NONXOR CAUCHY", &NonXor.over(Cauchy::new()))?;
    show_scheme(&rt, "NONXOR POLY", &NonXor.over(Poly::new()))
}
