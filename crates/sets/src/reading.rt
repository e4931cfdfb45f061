// Reading a data unit, which is rebuilt if it is missing.
ghost use Rattle.std.specs.Prelude.{◌≡◌, ◌*◌, ◌≤◌, true, ◌||◌, ◌++◌, length, if◌then◌else◌};
ghost use Rattle.stores.specs.Calls.{stands_answer};
ghost use Rattle.stores.specs.Model.{half_of};
ghost use Rattle.sets.specs.Calls.{pattern, ten_stand, list_for};
ghost use Rattle.sets.specs.Calls.Call.{Read};
ghost use Rattle.sets.specs.Meaning.{view, gave};
ghost use Rattle.sets.specs.Sets.{answer, place_after, read_bytes, status};

use crate::halves::{fetch_all, standing};
use crate::rebuilding::rebuild_bytes;
use crate::refusal::Refusal;
use crate::room::Room;
use crate::set::Set;
use codes::fetch::{count_standing, fetch_list};
use codes::scheme::Scheme;
use stores::store::UnitStore;
use units::number::UnitNumber;

impl<V: Scheme, S: UnitStore> Set<V, S> {
    // Writes a data unit into a place of two halves, and answers how many halves were fetched.
    pub fn read(&self, u: u8, place: &mut [u8]) -> Result<u8, Refusal>
        ensures answer { gave result place.new ≡ answer (view V.Scheme S.UnitStore self.now) (Read u place.old) }
        ensures place { place.new ≡ place_after (answer (view V.Scheme S.UnitStore self.now) (Read u place.old)) place.old }
    {
        let unit = UnitNumber::of_data(u)?;
        if place.len() != 2 * self.store.size() {
            return Err(Refusal::WrongLength);
        }
        let stood = standing(&self.store);
        if !self.can_read(&stood, u) {
            return Err(Refusal::TooFew);
        }
        Ok(self.read_unit(&stood, unit, place))
    }

    // Whether the unit stands, or ten do.
    fn can_read(&self, stood: &[bool; 14], u: u8) -> bool
        requires { stood.now ≡ pattern (stands_answer (S.UnitStore.model self.now.store)) }
        ensures { result ≡ (stands_answer (S.UnitStore.model self.now.store) u || ten_stand (status (view V.Scheme S.UnitStore self.now))) }
    {
        self.store.stands(u) || count_standing(stood) >= 10
    }

    // The same of a unit that can be read; `stood` says which units stand.
    pub(crate) fn read_unit(&self, stood: &[bool; 14], unit: UnitNumber, place: &mut [u8]) -> u8
        requires place { length place.old ≡ 2 * (S.UnitStore.model self.now.store).size }
        requires stood { stood.now ≡ pattern (stands_answer (S.UnitStore.model self.now.store)) }
        requires can { (stands_answer (S.UnitStore.model self.now.store) unit.number || ten_stand (status (view V.Scheme S.UnitStore self.now))) ≡ true }
        ensures fetched { result ≡ (if stands_answer (S.UnitStore.model self.now.store) unit.number then 2 else length (list_for (status (view V.Scheme S.UnitStore self.now)) unit.number)) }
        ensures bytes { place.new ≡ read_bytes (view V.Scheme S.UnitStore self.now) unit.number }
    {
        let u = unit.number();
        if self.store.stands(u) {
            read_standing(&self.store, u, place);
            return 2;
        }
        let list = fetch_list(self.scheme.version(), stood, u);
        let mut room = Room::new();
        fetch_all(&self.store, &list, &mut room);
        rebuild_bytes(
            &self.scheme,
            stood,
            unit,
            &list,
            &room,
            self.store.size(),
            place,
        );
        list.halves().len() as u8
    }
}

// Both halves of a unit that stands.
pub(crate) fn read_standing<S: UnitStore>(store: &S, u: u8, place: &mut [u8])
    requires stands { stands_answer (S.UnitStore.model store.now) u ≡ true }
    requires place { length place.old ≡ 2 * (S.UnitStore.model store.now).size }
    ensures { place.new ≡ half_of ((S.UnitStore.model store.now).unit u) 1 ++ half_of ((S.UnitStore.model store.now).unit u) 2 }
{
    let h = store.size();
    let _ = store.read(u, 1, &mut place[0..h]);
    let _ = store.read(u, 2, &mut place[h..2 * h]);
}
