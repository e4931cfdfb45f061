// Filling a set.
ghost use Rattle.std.specs.Prelude.{◌≡◌, ◌*◌, length};
ghost use Rattle.sets.specs.Calls.Call.{Fill};
ghost use Rattle.sets.specs.Fillings.{filled};
ghost use Rattle.sets.specs.Meaning.{make, view, done};
ghost use Rattle.sets.specs.Sets.{answer, after};

use crate::data::Data;
use crate::refusal::Refusal;
use crate::set::Set;
use codes::scheme::Scheme;
use stores::store::UnitStore;
use units::number::UnitNumber;

impl<V: Scheme, S: UnitStore> Set<V, S> {
    // Puts all fourteen units of the data.
    pub fn fill(&mut self, bytes: &[u8]) -> Result<(), Refusal>
        ensures view { view V.Scheme S.UnitStore self.new ≡ after (view V.Scheme S.UnitStore self.old) (Fill bytes.now) }
        ensures answer { done result ≡ answer (view V.Scheme S.UnitStore self.old) (Fill bytes.now) }
    {
        let h = self.store.size();
        if bytes.len() != 20 * h {
            return Err(Refusal::WrongLength);
        }
        if self.rebuild.is_some() {
            return Err(Refusal::RebuildOpen);
        }
        let mut place = [0u8; 1024];
        let data = Data { bytes, size: h };
        put_units(&self.scheme, &mut self.store, &data, &mut place[0..2 * h]);
        Ok(())
    }
}

// Puts each unit by way of a place of its size.
fn put_units<V: Scheme, S: UnitStore>(scheme: &V, store: &mut S, data: &Data, place: &mut [u8])
    requires size { data.now.size ≡ (S.UnitStore.model store.old).size }
    requires place { length place.old ≡ 2 * (S.UnitStore.model store.old).size }
    ensures { S.UnitStore.model store.new ≡ filled (make V.Scheme scheme.now) (S.UnitStore.model store.old).size data.now.bytes.now }
{
    for unit in UnitNumber::all() {
        data.write_unit(scheme, unit, place);
        let _ = store.put(unit.number(), place);
    }
}
