// Two stores as one, at the smaller of their half sizes.
ghost use Rattle.std.specs.Prelude.{◌≡◌, ◌*◌, ◌≤◌, length};
ghost use Rattle.stores.specs.Calls.{read_answer, read_place, put_answer, put_store, lose_answer, lose_store};
ghost use Rattle.stores.specs.Shelves.{seen_at, shelf_put, lower_put, upper_put, lower_lose, upper_lose};
ghost use Rattle.stores.specs.Meaning.{two_meaning};
ghost use Rattle.stores.specs.Bounds.{two_shelves_sound};

use crate::half::Half;
use crate::refusal::Refusal;
use crate::store::UnitStore;
use units::number::UnitNumber;

// The last unit of the lower shelf.
const LAST_LOWER: u8 = 10;

// Units 1 to 10 stand in `lower`, units 11 to 14 in `upper`.
#[derive(Drop)]
pub struct TwoShelf<L, U> {
    lower: L,
    upper: U,
}

impl<L, U> TwoShelf<L, U> {
    pub fn new(lower: L, upper: U) -> TwoShelf<L, U>
        ensures lower { result.lower ≡ lower }
        ensures upper { result.upper ≡ upper }
    {
        TwoShelf { lower, upper }
    }

    // The two shelves, each with all that it holds.
    pub fn into_parts(self) -> (L, U)
        ensures lower { result.0 ≡ self.lower }
        ensures upper { result.1 ≡ self.upper }
    {
        let TwoShelf { lower, upper } = self;
        (lower, upper)
    }
}

// The shelves are of two types, so no function can give the one that has a unit: each call names both.
impl<L: UnitStore, U: UnitStore> UnitStore for TwoShelf<L, U> {
    ghost model = { two_meaning L.UnitStore.model U.UnitStore.model };

    ghost sound = { λ s. two_shelves_sound (L.UnitStore.model s.lower) (U.UnitStore.model s.upper) (L.UnitStore.sound s.lower) (U.UnitStore.sound s.upper) };

    fn size(&self) -> usize {
        self.lower.size().min(self.upper.size())
    }

    fn stands(&self, unit: u8) -> bool {
        if unit <= LAST_LOWER {
            self.lower.stands(unit)
        } else {
            self.upper.stands(unit)
        }
    }

    fn read(&self, unit: u8, half: u8, place: &mut [u8]) -> Result<(), Refusal> {
        UnitNumber::try_from(unit)?;
        Half::try_from(half)?;
        if place.len() != self.size() {
            return Err(Refusal::Length);
        }
        if unit <= LAST_LOWER {
            read_first(&self.lower, unit, half, place)
        } else {
            read_first(&self.upper, unit, half, place)
        }
    }

    fn put(&mut self, unit: u8, bytes: &[u8]) -> Result<(), Refusal>
        ensures answer { result ≡ put_answer (two_meaning L.UnitStore.model U.UnitStore.model self.old) unit (length bytes.now) }
        ensures store { two_meaning L.UnitStore.model U.UnitStore.model self.new ≡ put_store (two_meaning L.UnitStore.model U.UnitStore.model self.old) unit bytes.now }
        ensures lower { L.UnitStore.model self.new.lower ≡ lower_put (L.UnitStore.model self.old.lower) (U.UnitStore.model self.old.upper) unit bytes.now }
        ensures upper { U.UnitStore.model self.new.upper ≡ upper_put (L.UnitStore.model self.old.lower) (U.UnitStore.model self.old.upper) unit bytes.now }
    {
        UnitNumber::try_from(unit)?;
        let n = self.size();
        if bytes.len() != 2 * n {
            return Err(Refusal::Length);
        }
        if unit <= LAST_LOWER {
            put_padded(&mut self.lower, n, unit, bytes)
        } else {
            put_padded(&mut self.upper, n, unit, bytes)
        }
    }

    fn lose(&mut self, unit: u8) -> Result<(), Refusal>
        ensures answer { result ≡ lose_answer unit }
        ensures store { two_meaning L.UnitStore.model U.UnitStore.model self.new ≡ lose_store (two_meaning L.UnitStore.model U.UnitStore.model self.old) unit }
        ensures lower { L.UnitStore.model self.new.lower ≡ lower_lose (L.UnitStore.model self.old.lower) unit }
        ensures upper { U.UnitStore.model self.new.upper ≡ upper_lose (U.UnitStore.model self.old.upper) unit }
    {
        if unit <= LAST_LOWER {
            self.lower.lose(unit)
        } else {
            self.upper.lose(unit)
        }
    }
}

// Reads the first bytes of a half, as many as the place has.
fn read_first<S: UnitStore>(s: &S, unit: u8, half: u8, place: &mut [u8]) -> Result<(), Refusal>
    requires { length place.old ≤ (S.model s.now).size }
    ensures answer { result ≡ read_answer (seen_at (length place.old) (S.model s.now)) unit half (length place.old) }
    ensures place { place.new ≡ read_place (seen_at (length place.old) (S.model s.now)) unit half place.old }
{
    let mut room = [0u8; 512];
    let whole = &mut room[..s.size()];
    s.read(unit, half, whole)?;
    place.copy_from_slice(&whole[..place.len()]);
    Ok(())
}

// Puts two halves of n bytes, each with zeros at its end up to the store's half size.
fn put_padded<S: UnitStore>(s: &mut S, n: usize, unit: u8, bytes: &[u8]) -> Result<(), Refusal>
    requires fits { n ≤ (S.model s.old).size }
    requires long { length bytes.now ≡ 2 * n }
    ensures answer { result ≡ put_answer (S.model s.old) unit (2 * (S.model s.old).size) }
    ensures store { S.model s.new ≡ shelf_put n (S.model s.old) unit bytes.now }
{
    let m = s.size();
    let mut room = [0u8; 1024];
    room[..n].copy_from_slice(&bytes[..n]);
    room[m..m + n].copy_from_slice(&bytes[n..]);
    s.put(unit, &room[..2 * m])
}
