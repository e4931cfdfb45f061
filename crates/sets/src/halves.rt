// Halves from a store.
ghost use Rattle.std.specs.Prelude.{◌≡◌, ◌+◌, ◌<◌, map, take};
ghost use Rattle.codes.specs.Lists.{listed};
ghost use Rattle.stores.specs.Calls.{stands_answer};
ghost use Rattle.sets.specs.Calls.{pattern};
ghost use Rattle.sets.specs.Rebuilding.{fetched};

use crate::room::Room;
use codes::list::FetchList;
use stores::store::UnitStore;

// Which of the units 1 to 14 stand.
pub(crate) fn standing<S: UnitStore>(store: &S) -> [bool; 14]
    ensures { result ≡ pattern (stands_answer (S.UnitStore.model store.now)) }
{
    std::array::from_fn(
        |p| -> bool
            requires { p < 14 }
            ensures { result ≡ stands_answer (S.UnitStore.model store.entry.now) (p + 1) }
        { store.stands(p as u8 + 1) },
    )
}

// Copies a half to the front of a place; zeros where its unit is missing.
pub(crate) fn fetch<S: UnitStore>(store: &S, unit: u8, half: u8, place: &mut [u8; 512])
    ensures { take (S.UnitStore.model store.now).size place.new ≡ fetched (S.UnitStore.model store.now) (unit, half) }
{
    let h = store.size();
    let front = &mut place[0..h];
    front.fill(0);
    let _ = store.read(unit, half, front);
}

// Fetches all the halves of a list.
pub(crate) fn fetch_all<S: UnitStore>(store: &S, list: &FetchList, room: &mut Room)
    ensures { map (take (S.UnitStore.model store.now).size) (take list.now.len room.new.halves) ≡ map (fetched (S.UnitStore.model store.now)) (listed list.now) }
{
    for (n, (unit, half)) in list.halves().iter().enumerate() {
        let mut place = [0u8; 512];
        fetch(store, *unit, *half, &mut place);
        room.halves[n] = place;
    }
}
