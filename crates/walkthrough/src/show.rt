// What the walk prints.
use crate::data::{Units, units_at};
use crate::lost::show_losses;
use codes::fetch::{fetch_list, standing_without};
use codes::list::FetchList;
use codes::refusal::Refusal;
use codes::scheme::Scheme;
use codes::version::Version;
use std::io;

// The fourteen units under one scheme, the halves to fetch for each of them, and lost units rebuilt.
pub fn show_scheme<V: Scheme>(rt: &impl Print, name: &str, scheme: &V) -> io::Result<()> {
    println!(rt; "\n{name}")?;
    match encoded(scheme) {
        Ok(bytes) => {
            show_units(rt, &bytes)?;
            show_lists(rt, scheme.version())?;
            show_losses(rt, scheme, &bytes)
        }
        Err(e) => println!(rt; "refused with {}", e.number()),
    }
}

// The fourteen units at both byte positions.
fn encoded<V: Scheme>(scheme: &V) -> Result<[Units; 2], Refusal> {
    Ok([units_at(scheme, 0)?, units_at(scheme, 1)?])
}

// Each unit: the two bytes of its first half, and those of its second.
fn show_units(rt: &impl Print, [one, two]: &[Units; 2]) -> io::Result<()> {
    for (u, ((a, b), (c, d))) in (1..15u8).zip(one.iter().zip(two)) {
        println!(rt; "unit {u}: {a} {c} | {b} {d}")?;
    }
    Ok(())
}

// The halves to fetch for each unit lost alone, and how many they are together.
fn show_lists(rt: &impl Print, version: Version) -> io::Result<()> {
    let mut total = 0usize;
    for u in 1..15u8 {
        let list = fetch_list(version, &standing_without(&[u]), u);
        show_list(rt, u, &list)?;
        total = total.saturating_add(list.halves().len());
    }
    println!(rt; "all fourteen units lost in turn: {total} halves, Reed-Solomon 280")
}

// The halves to fetch for a lost unit, and how many fewer they are than Reed-Solomon's twenty.
fn show_list(rt: &impl Print, u: u8, list: &FetchList) -> io::Result<()> {
    let count = list.halves().len();
    let saved = 20usize.saturating_sub(count);
    print!(rt; "lost {u}: fetch {count} halves, {saved} fewer than 20:")?;
    for (unit, half) in list.halves() {
        print!(rt; " {unit}.{half}")?;
    }
    println!(rt; "")
}
