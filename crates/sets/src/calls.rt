// Making a set, filling it and losing units.
ghost use Rattle.std.specs.Prelude.{◌≡◌};
ghost use Rattle.sets.specs.Calls.Call.{Lose};
ghost use Rattle.sets.specs.Meaning.{make, view, done};
ghost use Rattle.sets.specs.Sets.{new_set, answer, after};

use crate::refusal::Refusal;
use crate::room::Room;
use crate::set::Set;
use codes::scheme::Scheme;
use stores::store::UnitStore;
use units::number::UnitNumber;

impl<V: Scheme, S: UnitStore> Set<V, S> {
    // A set over a store, of which all units are lost.
    pub fn new(scheme: V, store: S) -> Set<V, S>
        ensures { view V.Scheme S.UnitStore result ≡ new_set (make V.Scheme scheme) (S.UnitStore.model store).size }
    {
        let mut store = store;
        for unit in UnitNumber::all() {
            let _ = store.lose(unit.number());
        }
        Set {
            scheme,
            store,
            room: Room::new(),
            rebuild: None,
        }
    }

    // The scheme and the store again.
    pub fn into_parts(self) -> (V, S)
        ensures { (result.0 ≡ self.scheme) × (result.1 ≡ self.store) }
    {
        let Set {
            scheme,
            store,
            room: _,
            rebuild: _,
        } = self;
        (scheme, store)
    }

    // Makes a unit missing.
    pub fn lose(&mut self, u: u8) -> Result<(), Refusal>
        ensures view { view V.Scheme S.UnitStore self.new ≡ after (view V.Scheme S.UnitStore self.old) (Lose u) }
        ensures answer { done result ≡ answer (view V.Scheme S.UnitStore self.old) (Lose u) }
    {
        UnitNumber::try_from(u)?;
        if self.rebuild.is_some() {
            return Err(Refusal::RebuildOpen);
        }
        let _ = self.store.lose(u);
        Ok(())
    }
}
