// Losing units of the walk and rebuilding them.
use crate::data::Units;
use codes::fetch::standing_without;
use codes::scheme::Scheme;
use rebuild::plan::Plan;
use rebuild::refusal::Refusal;
use std::io;
use std::ops::AddAssign;
use units::number::UnitNumber;

// What became of lost units: how many were rebuilt as they were, and how many halves were fetched for that.
#[derive(Clone, Copy, Default)]
struct Tally {
    rebuilt: usize,
    fetched: usize,
}

impl AddAssign for Tally {
    fn add_assign(&mut self, other: Tally) {
        self.rebuilt = self.rebuilt.saturating_add(other.rebuilt);
        self.fetched = self.fetched.saturating_add(other.fetched);
    }
}

// Loses each unit alone, and then four together, and says what was rebuilt.
pub(crate) fn show_losses<V: Scheme>(
    rt: &impl Print,
    scheme: &V,
    bytes: &[Units; 2],
) -> io::Result<()> {
    let mut alone = Tally::default();
    for u in 1..15u8 {
        alone += lose(rt, scheme, bytes, &[u])?;
    }
    show(rt, "14 lost units", alone)?;
    show(
        rt,
        "4 units lost together",
        lose(rt, scheme, bytes, &[1, 4, 12, 14])?,
    )
}

fn show(rt: &impl Print, lost: &str, tally: Tally) -> io::Result<()> {
    let Tally { rebuilt, fetched } = tally;
    println!(rt; "rebuilt {rebuilt} of {lost}, each the true one; halves fetched: {fetched}")
}

// Loses the units together, and rebuilds each from what stands.
fn lose<V: Scheme>(
    rt: &impl Print,
    scheme: &V,
    bytes: &[Units; 2],
    lost: &[u8],
) -> io::Result<Tally> {
    let standing = standing_without(lost);
    let mut tally = Tally::default();
    for u in lost {
        match rebuilt(scheme, bytes, &standing, *u) {
            Ok(one) => tally += one,
            Err(e) => println!(rt; "unit {u}: refused with {}", e.number())?,
        }
    }
    Ok(tally)
}

// Rebuilds the lost unit u at both byte positions, and counts it where it is the true one.
fn rebuilt<V: Scheme>(
    scheme: &V,
    bytes: &[Units; 2],
    standing: &[bool; 14],
    u: u8,
) -> Result<Tally, Refusal> {
    let unit = UnitNumber::try_from(u)?;
    let plan = Plan::new(scheme, standing, u)?;
    let truly = bytes.iter().all(|units| is_true(&plan, units, unit));
    Ok(Tally {
        rebuilt: usize::from(truly),
        fetched: plan.list().halves().len(),
    })
}

// Whether the plan rebuilds both bytes that its unit had at one byte position.
fn is_true(plan: &Plan, units: &Units, unit: UnitNumber) -> bool {
    plan.rebuild(&plan.list().pick(units, 0)) == units[unit.position()]
}
