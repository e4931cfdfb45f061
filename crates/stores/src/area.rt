// A store over lent bytes.
ghost use Rattle.std.specs.Prelude.{◌≡◌, ◌+◌, ◌*◌, ◌<◌, ◌≤◌, length, Ok};
ghost use Rattle.stores.specs.Model.{holds};
ghost use Rattle.stores.specs.Layout.{half_in, laid, LayoutBijective, LayoutFigure};
ghost use Rattle.stores.specs.Area.{suits_answer, size_over, fresh, unit_start, put_area};
ghost use Rattle.stores.specs.Halves.{half_number};
ghost use Rattle.stores.specs.Inside.{Hops};

use crate::half::Half;
use crate::refusal::{AreaRefusal, Refusal};
use crate::store::UnitStore;
use std::ops::Range;
use units::number::UnitNumber;

// Unit u lies in the 2 H bytes from (u - 1) 2 H on. H is `size`: the one asked for, or 0 where the area does not suit.
#[derive(Drop)]
pub struct AreaStore<'a> {
    area: &'a mut [u8],
    size: usize,
    hop: usize,
    present: [bool; 14],
    ghost in_use: { size ≡ size_over (length area.now) size hop },
}

// Whether an area of `len` bytes suits the half size `size` and the hop length `hop`.
pub fn suits(len: usize, size: usize, hop: usize) -> Result<(), AreaRefusal>
    ensures answer { result ≡ suits_answer len size hop }
    ensures layout { result ≡ Ok tt → LayoutBijective hop size }
    ensures figure { LayoutFigure }
{
    if size == 0 || size > 512 {
        return Err(AreaRefusal::HalfSize);
    }
    if hop == 0 || size % hop != 0 {
        return Err(AreaRefusal::HopLength);
    }
    if len != 28 * size {
        return Err(AreaRefusal::AreaLength);
    }
    Ok(())
}

impl<'a> AreaStore<'a> {
    ghost use Rattle.stores.specs.Meaning.{area_meaning};

    // A store over `area` in which no unit stands.
    pub fn new(area: &'a mut [u8], size: usize, hop: usize) -> AreaStore<'a>
        ensures model { area_meaning result ≡ fresh (length area.old) size hop }
        ensures hop { result.hop ≡ hop }
        ensures area { result.area.now ≡ area.old }
        ensures lent { result.area.ghost_name ≡ area.entry.ghost_name }
    {
        let suited = suits(area.len(), size, hop).is_ok();
        AreaStore {
            area,
            size: if suited { size } else { 0 },
            hop,
            present: [false; 14],
        }
    }

    // Where the bytes of a unit lie.
    fn span(&self, unit: UnitNumber) -> Range<usize>
        ensures start { result.start ≡ unit_start self.now.size unit.number }
        ensures end { result.end ≡ unit_start self.now.size unit.number + 2 * self.now.size }
        ensures within { result.end ≤ length self.now.area.now }
    {
        let length = 2 * self.size;
        let start = unit.position() * length;
        start..start + length
    }
}

impl<'a> UnitStore for AreaStore<'a> {
    ghost use Rattle.stores.specs.Calls.{put_answer, put_store, lose_answer, lose_store};
    ghost use Rattle.stores.specs.Meaning.{area_meaning};
    ghost use Rattle.stores.specs.Bounds.{area_sound};

    ghost model = { area_meaning };

    ghost sound = { area_sound };

    fn size(&self) -> usize {
        self.size
    }

    // a `match`: the closure of `is_ok_and` gets no proof
    fn stands(&self, unit: u8) -> bool {
        match UnitNumber::try_from(unit) {
            Ok(unit) => self.present[unit.position()],
            Err(_) => false,
        }
    }

    fn read(&self, unit: u8, half: u8, place: &mut [u8]) -> Result<(), Refusal> {
        let unit = UnitNumber::try_from(unit)?;
        let half = Half::try_from(half)?;
        if place.len() != self.size {
            return Err(Refusal::Length);
        }
        if !self.present[unit.position()] {
            return Err(Refusal::Missing);
        }
        take_half(&self.area[self.span(unit)], half, self.hop, place);
        Ok(())
    }

    // inlined, so that a hop length that the compiler knows is worked out in place
    #[inline]
    fn put(&mut self, unit: u8, bytes: &[u8]) -> Result<(), Refusal>
        ensures answer { result ≡ put_answer (area_meaning self.old) unit (length bytes.now) }
        ensures store { area_meaning self.new ≡ put_store (area_meaning self.old) unit bytes.now }
        ensures area { self.new.area.now ≡ put_area (area_meaning self.old) self.old.hop unit bytes.now self.old.area.now }
        ensures hop { self.new.hop ≡ self.old.hop }
        ensures lent { self.new.area.ghost_name ≡ self.old.area.ghost_name }
    {
        let unit = UnitNumber::try_from(unit)?;
        if bytes.len() != 2 * self.size {
            return Err(Refusal::Length);
        }
        let (first, second) = bytes.split_at(self.size);
        let span = self.span(unit);
        lay(&mut self.area[span], self.hop, first, second);
        self.present[unit.position()] = true;
        Ok(())
    }

    fn lose(&mut self, unit: u8) -> Result<(), Refusal>
        ensures answer { result ≡ lose_answer unit }
        ensures store { area_meaning self.new ≡ lose_store (area_meaning self.old) unit }
        ensures area { self.new.area.now ≡ self.old.area.now }
        ensures hop { self.new.hop ≡ self.old.hop }
        ensures lent { self.new.area.ghost_name ≡ self.old.area.ghost_name }
    {
        let unit = UnitNumber::try_from(unit)?;
        self.present[unit.position()] = false;
        Ok(())
    }
}

// Copies one half of a unit's bytes into `place`.
fn take_half(unit: &[u8], half: Half, hop: usize, place: &mut [u8])
    requires hops { 0 < length place.old → Hops hop (length place.old) }
    requires long { length unit.now ≡ 2 * length place.old }
    ensures { place.new ≡ half_in hop (length place.old) unit.now (half_number half) }
{
    if hop == 1 {
        // a call that copies takes longer than a byte
        return take_alternate(unit, half, place);
    }
    if place.is_empty() {
        return; // the hop length may be 0
    }
    let first = half.position() * hop;
    for (q, pair) in unit.chunks_exact(2 * hop).enumerate() {
        place[q * hop..(q + 1) * hop].copy_from_slice(&pair[first..first + hop]);
    }
}

// The same where the bytes of the two halves alternate.
fn take_alternate(unit: &[u8], half: Half, place: &mut [u8])
    requires { length unit.now ≡ 2 * length place.old }
    ensures { place.new ≡ half_in 1 (length place.old) unit.now (half_number half) }
{
    let first = half.position();
    for (i, byte) in place.iter_mut().enumerate() {
        *byte = unit[2 * i + first];
    }
}

// Lays the two halves of a unit out in its bytes.
fn lay(unit: &mut [u8], hop: usize, first: &[u8], second: &[u8])
    requires hops { 0 < length first.now → Hops hop (length first.now) }
    requires long { length unit.old ≡ 2 * length first.now }
    requires same { length second.now ≡ length first.now }
    ensures { unit.new ≡ laid hop (length first.now) (holds first.now second.now) }
{
    if hop == 1 {
        return lay_alternate(unit, first, second);
    }
    if first.is_empty() {
        return; // the hop length may be 0
    }
    let hops = first.chunks_exact(hop).zip(second.chunks_exact(hop));
    for (q, (a, b)) in hops.enumerate() {
        let from = q * (2 * hop);
        unit[from..from + hop].copy_from_slice(a);
        unit[from + hop..from + 2 * hop].copy_from_slice(b);
    }
}

// The same with the bytes of the two halves by turns; apart from `put`, which is inlined.
#[inline(never)]
fn lay_alternate(unit: &mut [u8], first: &[u8], second: &[u8])
    requires long { length unit.old ≡ 2 * length first.now }
    requires same { length second.now ≡ length first.now }
    ensures { unit.new ≡ laid 1 (length first.now) (holds first.now second.now) }
{
    // two places are written at each position
    for i in 0..first.len() {
        unit[2 * i] = first[i];
        unit[2 * i + 1] = second[i];
    }
}
