// What every store owes its callers.
ghost use Rattle.std.specs.Prelude.{◌≡◌, length};
ghost use Rattle.stores.specs.Model.{Store, Sound};
ghost use Rattle.stores.specs.Calls.{stands_answer, read_answer, read_place, put_answer, put_store, lose_answer, lose_store};

use crate::refusal::Refusal;

pub trait UnitStore {
    // what the store holds
    ghost model: { Self → Store };

    // the bounds of what any store holds
    ghost sound: { (s : Self) → Sound (model s) };

    // The half size.
    fn size(&self) -> usize
        ensures { result ≡ (model self.now).size };

    // Whether the unit stands; a number that is no unit does not.
    fn stands(&self, unit: u8) -> bool
        ensures { result ≡ stands_answer (model self.now) unit };

    // Copies half 1 or 2 of a unit into `place`.
    fn read(&self, unit: u8, half: u8, place: &mut [u8]) -> Result<(), Refusal>
        ensures answer { result ≡ read_answer (model self.now) unit half (length place.old) }
        ensures place { place.new ≡ read_place (model self.now) unit half place.old };

    // Puts a unit: `bytes` is its first half and then its second.
    fn put(&mut self, unit: u8, bytes: &[u8]) -> Result<(), Refusal>
        ensures answer { result ≡ put_answer (model self.old) unit (length bytes.now) }
        ensures store { model self.new ≡ put_store (model self.old) unit bytes.now };

    // Makes a unit missing.
    fn lose(&mut self, unit: u8) -> Result<(), Refusal>
        ensures answer { result ≡ lose_answer unit }
        ensures store { model self.new ≡ lose_store (model self.old) unit };
}
