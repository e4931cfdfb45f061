// The bytes of a missing unit, from the halves that were fetched by its list.
ghost use Rattle.std.specs.Prelude.{◌≡◌, ℕ, ◌+◌, ◌*◌, ◌<◌, ◌≤◌, true, map, length, take, bit_xor, slice_index, slice_index_or, []};
ghost use Rattle.field.specs.Arithmetic.{gmul};
ghost use Rattle.codes.specs.Lists.{listed};
ghost use Rattle.rebuild.specs.Gathered.{fetched_by};
ghost use Rattle.rebuild.specs.Plans.{stands_in, Only};
ghost use Rattle.sets.specs.Meaning.{make};
ghost use Rattle.sets.specs.Rebuilding.{can_rebuild, column, rebuilt_bytes};

use crate::room::Room;
use codes::list::FetchList;
use codes::scheme::Scheme;
use rebuild::plan::Plan;
use units::number::UnitNumber;

// Writes the bytes of a unit, its first half of h bytes and then its second, where `stood` says which units stood.
pub(crate) fn rebuild_bytes<V: Scheme>(
    scheme: &V,
    stood: &[bool; 14],
    unit: UnitNumber,
    list: &FetchList,
    room: &Room,
    h: usize,
    place: &mut [u8],
)
    requires can { can_rebuild stood.now unit.number ≡ true }
    requires small { h ≤ 512 }
    requires place { length place.old ≡ 2 * h }
    ensures { place.new ≡ rebuilt_bytes (make V.Scheme scheme.now) h stood.now unit.number (listed list.now) (map (take h) (take list.now.len room.now.halves)) }
{
    match Plan::new(scheme, stood, unit.number()) {
        Ok(plan) => write_rebuilt(&plan, list, room, h, place),
        Err(_) => unreachable(),
    }
}

// The same by a plan, position by position.
fn write_rebuilt(plan: &Plan, list: &FetchList, room: &Room, h: usize, place: &mut [u8])
    requires small { h ≤ 512 }
    requires place { length place.old ≡ 2 * h }
    ensures bytes { (i : ℕ) → i < h → (k : ℕ) → slice_index (column room.now.halves i) k < 256 }
    ensures only { (i : ℕ) → i < h → Only (λ x. x < 256) 0 bit_xor gmul plan.now.encoder.version plan.now.encoder.table (stands_in plan.now.standing) plan.now.unit.number (fetched_by 0 (listed list.now) (column room.now.halves i) 1) (fetched_by 0 (listed list.now) (column room.now.halves i) 2) (slice_index place.new i, slice_index place.new (h + i)) }
{
    // two places are written at each position, as in `Data::write_unit`
    for i in 0..h {
        let fetched = byte_column(room, i);
        let (x, y) = plan.rebuild_listed(list, &fetched);
        place[i] = x;
        place[h + i] = y;
    }
}

// The byte at position i of each half.
fn byte_column(room: &Room, i: usize) -> [u8; 20]
    requires within { i < 512 }
    ensures value { result ≡ column room.now.halves i }
    ensures bytes { (k : ℕ) → slice_index result k < 256 }
{
    std::array::from_fn(
        |n| -> u8
            requires { (n < 20) × (i < 512) }
            ensures value { result ≡ slice_index (slice_index_or room.entry.now.halves n []) i }
            ensures byte { result < 256 }
        { room.halves[n][i] },
    )
}
