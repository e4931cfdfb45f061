// All 1470 patterns of one to four missing units, under each of the seven schemes, on data that looks random.
use codes::cauchy::Cauchy;
use codes::encode::encode_unit;
use codes::fetch::count_standing;
use codes::poly::Poly;
use codes::refusal::Refusal;
use codes::scheme::{GoesWith, NonXor, Rs, Scheme, Xor, XorPlus};
use codes::version::Version;
use rebuild::plan::Plan;
use rebuild::refusal::Refusal as PlanRefusal;
use std::process::Abort;
use std::test::Fail;
use units::number::UnitNumber;

// What the generator starts from; each pattern adds its own number.
const SEED: u32 = 20_250_101;

// A linear congruential generator.
#[derive(Drop)]
struct Generator {
    state: u32,
}

impl Generator {
    fn byte(&mut self) -> u8 {
        self.state = self
            .state
            .wrapping_mul(1_664_525)
            .wrapping_add(1_013_904_223);
        ((self.state >> 16) % 256) as u8
    }

    fn ten_bytes(&mut self) -> [u8; 10] {
        std::array::from_fn(|_| self.byte())
    }
}

// The fourteen units of data from a seed.
fn filling<V: Scheme>(scheme: &V, seed: u32) -> Result<[(u8, u8); 14], Refusal> {
    let mut generator = Generator { state: seed };
    let a = generator.ten_bytes();
    let b = generator.ten_bytes();
    std::array::try_from_fn(|p| encode_unit(scheme, &a, &b, p as u8 + 1))
}

// The units that stand under a pattern: those whose bit is set.
fn standing_of(pattern: u32) -> [bool; 14] {
    std::array::from_fn(|p| (pattern >> p) & 1 == 1)
}

// How many halves are listed for the missing unit u, where so many are missing.
fn expected_length(version: Version, u: u8, missing: usize) -> usize {
    match version {
        _ if missing > 1 || u > 10 => 20,
        Version::Rs => 20,
        Version::Xor if u > 6 => 14,
        Version::Xor | Version::XorPlus | Version::NonXor => 13,
    }
}

// One missing unit: the length of its list, and the unit as it was; what is behind the list must not count.
fn rebuilds<V: Scheme>(
    scheme: &V,
    units: &[(u8, u8); 14],
    standing: &[bool; 14],
    u: u8,
) -> Result<bool, PlanRefusal> {
    let position = UnitNumber::try_from(u)?.position();
    let missing = 14usize.saturating_sub(count_standing(standing));
    let plan = Plan::new(scheme, standing, u)?;
    let list = plan.list();
    let expected = expected_length(scheme.version(), u, missing);
    let rebuilt = plan.rebuild(&list.pick(units, 171));
    Ok(list.halves().len() == expected && rebuilt == units[position])
}

// Every missing unit of one pattern; how many there were.
fn rebuilds_each<V: Scheme>(
    rt: &impl Abort,
    scheme: &V,
    units: &[(u8, u8); 14],
    standing: &[bool; 14],
) -> Result<usize, Fail> {
    let mut rebuilt = 0usize;
    for (u, stands) in (1..15u8).zip(standing) {
        if !*stands {
            assert!(rt; rebuilds(scheme, units, standing, u)?);
            rebuilt = rebuilt.saturating_add(1);
        }
    }
    Ok(rebuilt)
}

// One pattern with data of its own; how many units were rebuilt, none where not one to four are missing.
fn rebuilds_pattern<V: Scheme>(rt: &impl Abort, scheme: &V, pattern: u32) -> Result<usize, Fail> {
    let standing = standing_of(pattern);
    if !(10..14).contains(&count_standing(&standing)) {
        return Ok(0);
    }
    let units = filling(scheme, SEED.wrapping_add(pattern))?;
    rebuilds_each(rt, scheme, &units, &standing)
}

// All patterns: 14 + 91 + 364 + 1001 of them, and in them 14 + 182 + 1092 + 4004 missing units.
fn rebuilds_all<V: Scheme>(rt: &impl Abort, scheme: &V) -> Result<(), Fail> {
    let mut patterns = 0usize;
    let mut rebuilt = 0usize;
    for pattern in 0..16_384u32 {
        let units = rebuilds_pattern(rt, scheme, pattern)?;
        patterns = patterns.saturating_add(usize::from(units > 0));
        rebuilt = rebuilt.saturating_add(units);
    }
    assert_eq!(rt; patterns, 1470);
    assert_eq!(rt; rebuilt, 5292);
    Ok(())
}

#[test]
fn rs(rt: HostRuntime) -> Result<(), Fail> {
    rebuilds_all(&rt, &Rs.over(Cauchy::new()))?;
    rebuilds_all(&rt, &Rs.over(Poly::new()))
}

#[test]
fn xor(rt: HostRuntime) -> Result<(), Fail> {
    rebuilds_all(&rt, &Xor.over(Cauchy::new()))?;
    rebuilds_all(&rt, &Xor.over(Poly::new()))
}

#[test]
fn xor_plus(rt: HostRuntime) -> Result<(), Fail> {
    rebuilds_all(&rt, &XorPlus.over(Cauchy::new()))
}

#[test]
fn nonxor(rt: HostRuntime) -> Result<(), Fail> {
    rebuilds_all(&rt, &NonXor.over(Cauchy::new()))?;
    rebuilds_all(&rt, &NonXor.over(Poly::new()))
}

// The refusals of a plan, in their order.
#[test]
fn refusals(rt: HostRuntime) {
    let scheme = Xor.over(Poly::new());
    let all = [true; 14];
    let none = [false; 14];
    assert_eq!(rt; refused_with(&scheme, &all, 0), Some(1));
    assert_eq!(rt; refused_with(&scheme, &none, 15), Some(1));
    assert_eq!(rt; refused_with(&scheme, &all, 14), Some(8));
    assert_eq!(rt; refused_with(&scheme, &standing_of(1), 1), Some(8));
    assert_eq!(rt; refused_with(&scheme, &standing_of(1), 2), Some(5));
    assert_eq!(rt; refused_with(&scheme, &none, 14), Some(5));
    assert_eq!(rt; refused_with(&scheme, &standing_of(1023), 14), None);
}

// The number that a plan is refused with, if it is.
fn refused_with<V: Scheme>(scheme: &V, standing: &[bool; 14], u: u8) -> Option<u8> {
    Plan::new(scheme, standing, u).err().map(|e| e.number())
}
