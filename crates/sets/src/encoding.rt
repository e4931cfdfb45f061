// The units of data, over whole halves.
ghost use Rattle.std.specs.Prelude.{◌≡◌, ◌+◌, ◌*◌, ◌<◌, ◌≤◌, map, length, bit_xor};
ghost use Rattle.std.specs.List.{range_with_len};
ghost use Rattle.field.specs.Arithmetic.{gmul};
ghost use Rattle.tables.specs.Multipliers.{entry};
ghost use Rattle.codes.specs.Versions.{units};
ghost use Rattle.sets.specs.Fillings.{byte_of, unit_bytes};
ghost use Rattle.sets.specs.Meaning.{make};

use crate::data::Data;
use codes::encoder::Encoder;
use codes::scheme::Scheme;
use units::number::UnitNumber;

impl Data<'_> {
    // Writes the bytes of a unit: its first half, and then its second.
    pub(crate) fn write_unit<V: Scheme>(&self, scheme: &V, unit: UnitNumber, place: &mut [u8])
        requires { length place.old ≡ 2 * self.now.size }
        ensures { place.new ≡ unit_bytes (make V.Scheme scheme.now) self.now.size self.now.bytes.now unit.number }
    {
        let encoder = scheme.encoder();
        // two places are written at each position, and what is written through a zip of `iter_mut` is not known afterwards
        for i in 0..self.size {
            let (x, y) = self.pair(&encoder, unit, i);
            place[i] = x;
            place[self.size + i] = y;
        }
    }

    // The two bytes of a unit at the byte position i.
    fn pair(&self, encoder: &Encoder, unit: UnitNumber, i: usize) -> (u8, u8)
        requires { i < self.now.size }
        ensures { result ≡ units 0 bit_xor gmul encoder.now.version (entry encoder.now.table) (byte_of self.now.size self.now.bytes.now i) (byte_of self.now.size self.now.bytes.now (self.now.size + i)) unit.number }
    {
        let a = self.column(i);
        let b = self.column(self.size + i);
        encoder.unit(&a, &b, unit)
    }

    // Byte j of each of the ten data units.
    fn column(&self, j: usize) -> [u8; 10]
        requires { j < 2 * self.now.size }
        ensures { result ≡ map (byte_of self.now.size self.now.bytes.now j) (range_with_len 0 10) }
    {
        let Data { bytes, size } = *self;
        std::array::from_fn(
            |k| -> u8
                requires { (k < 10) × ((size ≤ 512) × ((j < 2 * size) × (length bytes.now ≡ 20 * size))) }
                ensures { result ≡ byte_of size bytes.entry.now j k }
            { bytes[k * (2 * size) + j] },
        )
    }
}
