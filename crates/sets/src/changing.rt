// Changing a data unit, and with it the parities.
ghost use Rattle.std.specs.Prelude.{◌≡◌, ◌*◌, ◌≤◌, true, length, if◌then◌else◌, bit_xor};
ghost use Rattle.std.specs.Simd.Lanes.{zip2};
ghost use Rattle.tables.specs.Codewords.{bit};
ghost use Rattle.stores.specs.Calls.{stands_answer};
ghost use Rattle.stores.specs.Model.{with_slot, halves};
ghost use Rattle.sets.specs.Calls.{pattern, ten_stand, puts};
ghost use Rattle.sets.specs.Calls.Call.{Change};
ghost use Rattle.sets.specs.Fillings.{unit_of};
ghost use Rattle.sets.specs.Meaning.{make, view, counted};
ghost use Rattle.sets.specs.Sets.{answer, after, read_bytes, alone, sum_units, changed_store, status};

use crate::data::Data;
use crate::halves::standing;
use crate::reading::read_standing;
use crate::refusal::Refusal;
use crate::set::Set;
use codes::fetch::count_standing;
use codes::scheme::Scheme;
use stores::store::UnitStore;
use units::number::UnitNumber;

impl<V: Scheme, S: UnitStore> Set<V, S> {
    // Gives a data unit new bytes, and answers how many units were put.
    pub fn change(&mut self, u: u8, bytes: &[u8]) -> Result<u8, Refusal>
        ensures view { view V.Scheme S.UnitStore self.new ≡ after (view V.Scheme S.UnitStore self.old) (Change u bytes.now) }
        ensures answer { counted result ≡ answer (view V.Scheme S.UnitStore self.old) (Change u bytes.now) }
    {
        let unit = UnitNumber::of_data(u)?;
        let h = self.store.size();
        if bytes.len() != 2 * h {
            return Err(Refusal::WrongLength);
        }
        if self.rebuild.is_some() {
            return Err(Refusal::RebuildOpen);
        }
        let stood = standing(&self.store);
        if count_standing(&stood) < 10 {
            return Err(Refusal::TooFew);
        }
        let mut room = [0u8; 10240];
        let difference = &mut room[0..20 * h];
        self.write_difference(&stood, unit, bytes, difference);
        let difference = Data {
            bytes: difference,
            size: h,
        };
        Ok(put_changes(&self.scheme, &mut self.store, unit, bytes, &difference))
    }

    // The data that is old plus new in one unit, and zero elsewhere.
    fn write_difference(
        &self,
        stood: &[bool; 14],
        unit: UnitNumber,
        bytes: &[u8],
        difference: &mut [u8],
    )
        requires data { unit.number ≤ 10 }
        requires bytes { length bytes.now ≡ 2 * (S.UnitStore.model self.now.store).size }
        requires whole { length difference.old ≡ 20 * (S.UnitStore.model self.now.store).size }
        requires stood { stood.now ≡ pattern (stands_answer (S.UnitStore.model self.now.store)) }
        requires ten { ten_stand (status (view V.Scheme S.UnitStore self.now)) ≡ true }
        ensures { difference.new ≡ alone (S.UnitStore.model self.now.store).size unit.number (zip2 bit_xor (read_bytes (view V.Scheme S.UnitStore self.now) unit.number) bytes.now) }
    {
        let h = self.store.size();
        let from = unit.position() * (2 * h);
        difference.fill(0);
        let part = &mut difference[from..from + 2 * h];
        self.read_unit(stood, unit, part);
        xor_into(part, bytes);
    }
}

// Puts the changed unit and the changed parities, as far as they stand, and answers how many.
fn put_changes<V: Scheme, S: UnitStore>(
    scheme: &V,
    store: &mut S,
    unit: UnitNumber,
    bytes: &[u8],
    difference: &Data,
) -> u8
    requires data { unit.number ≤ 10 }
    requires bytes { length bytes.now ≡ 2 * (S.UnitStore.model store.old).size }
    requires size { difference.now.size ≡ (S.UnitStore.model store.old).size }
    ensures store { S.UnitStore.model store.new ≡ changed_store (make V.Scheme scheme.now) (S.UnitStore.model store.old) unit.number bytes.now difference.now.bytes.now }
    ensures count { result ≡ puts (stands_answer (S.UnitStore.model store.old)) unit.number }
{
    let mut put = put_standing(store, unit, bytes);
    for parity in UnitNumber::parities() {
        put += change_parity(scheme, store, parity, difference);
    }
    put
}

// Puts a unit if it stands, and answers how many were put.
fn put_standing<S: UnitStore>(store: &mut S, unit: UnitNumber, bytes: &[u8]) -> u8
    requires bytes { length bytes.now ≡ 2 * (S.UnitStore.model store.old).size }
    ensures store { S.UnitStore.model store.new ≡ (if stands_answer (S.UnitStore.model store.old) unit.number then with_slot (S.UnitStore.model store.old) unit.number (halves (S.UnitStore.model store.old).size bytes.now) else S.UnitStore.model store.old) }
    ensures count { result ≡ bit (stands_answer (S.UnitStore.model store.old) unit.number) }
{
    let u = unit.number();
    if !store.stands(u) {
        return 0;
    }
    let _ = store.put(u, bytes);
    1
}

// Sums a parity unit, if it stands, with the unit of the difference, and answers how many were put.
fn change_parity<V: Scheme, S: UnitStore>(
    scheme: &V,
    store: &mut S,
    unit: UnitNumber,
    difference: &Data,
) -> u8
    requires size { difference.now.size ≡ (S.UnitStore.model store.old).size }
    ensures store { S.UnitStore.model store.new ≡ (if stands_answer (S.UnitStore.model store.old) unit.number then with_slot (S.UnitStore.model store.old) unit.number (sum_units ((S.UnitStore.model store.old).unit unit.number) (unit_of (make V.Scheme scheme.now) (S.UnitStore.model store.old).size difference.now.bytes.now unit.number)) else S.UnitStore.model store.old) }
    ensures count { result ≡ bit (stands_answer (S.UnitStore.model store.old) unit.number) }
{
    if !store.stands(unit.number()) {
        return 0;
    }
    let h = store.size();
    let mut old = [0u8; 1024];
    let mut added = [0u8; 1024];
    sum_parity(
        scheme,
        store,
        unit,
        difference,
        &mut old[0..2 * h],
        &mut added[0..2 * h],
    );
    1
}

// The same by way of two places of a unit's size.
fn sum_parity<V: Scheme, S: UnitStore>(
    scheme: &V,
    store: &mut S,
    unit: UnitNumber,
    difference: &Data,
    old: &mut [u8],
    added: &mut [u8],
)
    requires stands { stands_answer (S.UnitStore.model store.old) unit.number ≡ true }
    requires size { difference.now.size ≡ (S.UnitStore.model store.old).size }
    requires old { length old.old ≡ 2 * (S.UnitStore.model store.old).size }
    requires added { length added.old ≡ 2 * (S.UnitStore.model store.old).size }
    ensures { S.UnitStore.model store.new ≡ with_slot (S.UnitStore.model store.old) unit.number (sum_units ((S.UnitStore.model store.old).unit unit.number) (unit_of (make V.Scheme scheme.now) (S.UnitStore.model store.old).size difference.now.bytes.now unit.number)) }
{
    let w = unit.number();
    read_standing(store, w, old);
    difference.write_unit(scheme, unit, added);
    xor_into(old, added);
    let _ = store.put(w, old);
}

// Sums bytes into a place of the same length.
fn xor_into(place: &mut [u8], bytes: &[u8])
    requires { length bytes.now ≡ length place.old }
    ensures { place.new ≡ zip2 bit_xor place.old bytes.now }
{
    for (i, byte) in place.iter_mut().enumerate() {
        *byte ^= bytes[i];
    }
}
