// What is done with the record of an open rebuild: tickets are compared with it, halves are gathered and the unit is put.
ghost use Rattle.std.specs.Prelude.{◌≡◌, ◌+◌, ◌<◌, ◌==◌, ◌&&◌, [], ◌∷◌, ◌++◌, length, slice_index_or, Ok};
ghost use Rattle.codes.specs.Lists.{listed};
ghost use Rattle.stores.specs.Model.{with_slot, halves};
ghost use Rattle.sets.specs.Calls.{right_at, kind_at};
ghost use Rattle.sets.specs.Calls.Answer.{Fetched};
ghost use Rattle.sets.specs.Meaning.{make, gathers, gathered_of};
ghost use Rattle.sets.specs.Rebuilding.{fetched, rebuilt_bytes};

use crate::halves::fetch;
use crate::open_rebuild::OpenRebuild;
use crate::rebuilding::rebuild_bytes;
use crate::room::Room;
use crate::ticket::{Gathered, OpenTicket, Stage, Ticket};
use codes::scheme::Scheme;
use stores::store::UnitStore;

impl OpenRebuild {
    // How many halves are listed.
    fn listed(&self) -> u8
        ensures { result ≡ length (listed self.now.list) }
    {
        self.list.halves().len() as u8
    }

    // Whether the ticket is that of this rebuild.
    pub(crate) fn matches<K: Stage>(&self, t: &Ticket<K>) -> bool
        ensures { result ≡ (self.now.unit.number == t.now.unit && (self.now.count == t.now.count && right_at K.kind self.now.count (length (listed self.now.list)))) }
    {
        self.unit.number() == t.unit && self.count == t.count && K::is_at(self.count, self.listed())
    }

    // Fetches the next listed half into the room, and counts it.
    pub(crate) fn gather<S: UnitStore>(
        &mut self,
        store: &S,
        room: &mut Room,
        t: OpenTicket,
    ) -> Gathered
        requires unit { self.old.unit.number ≡ t.unit }
        requires count { self.old.count ≡ t.count }
        requires named { self.old.count < length (listed self.old.list) }
        ensures unit { self.new.unit ≡ self.old.unit }
        ensures stood { self.new.stood ≡ self.old.stood }
        ensures list { self.new.list ≡ self.old.list }
        ensures gathered { gathered_of (S.UnitStore.model store.now).size room.new self.new ≡ gathered_of (S.UnitStore.model store.now).size room.old self.old ++ (fetched (S.UnitStore.model store.now) (slice_index_or (listed self.old.list) t.count (0, 0)) ∷ []) }
        ensures answer { gathers (Ok result) ≡ Fetched (slice_index_or (listed self.old.list) t.count (0, 0)) (kind_at (listed self.old.list) (t.count + 1)) t.unit (t.count + 1) }
    {
        let unit = t.unit;
        let count = t.end();
        let half = self.list.halves()[count as usize];
        let mut place = [0u8; 512];
        fetch(store, half.0, half.1, &mut place);
        room.halves[count as usize] = place;
        self.count = count + 1;
        if count + 1 < self.listed() {
            Gathered::More(half, Ticket::new(unit, count + 1))
        } else {
            Gathered::Last(half, Ticket::new(unit, count + 1))
        }
    }

    // Puts the unit that the gathered halves rebuild.
    pub(crate) fn put<V: Scheme, S: UnitStore>(&self, scheme: &V, store: &mut S, room: &Room)
        requires { self.now.count ≡ length (listed self.now.list) }
        ensures { S.UnitStore.model store.new ≡ with_slot (S.UnitStore.model store.old) self.now.unit.number (halves (S.UnitStore.model store.old).size (rebuilt_bytes (make V.Scheme scheme.now) (S.UnitStore.model store.old).size self.now.stood self.now.unit.number (listed self.now.list) (gathered_of (S.UnitStore.model store.old).size room.now self.now))) }
    {
        let h = store.size();
        let mut place = [0u8; 1024];
        let bytes = &mut place[0..2 * h];
        rebuild_bytes(scheme, &self.stood, self.unit, &self.list, room, h, bytes);
        let _ = store.put(self.unit.number(), bytes);
    }
}
