// What a store holds, unit by unit, against the version's units of the data.
use crate::data::column;
use codes::encode::encode_unit;
use codes::refusal::Refusal;
use codes::scheme::Scheme;
use stores::store::UnitStore;

// Whether all fourteen units stand and are those of the data.
pub(crate) fn is_filling<V: Scheme, S: UnitStore>(scheme: &V, store: &S, data: &[u8]) -> bool {
    (1..15u8).all(|w| holds_unit(scheme, store, data, w))
}

fn holds_unit<V: Scheme, S: UnitStore>(scheme: &V, store: &S, data: &[u8], w: u8) -> bool {
    let h = store.size().min(512);
    let mut first = [0u8; 512];
    let mut second = [0u8; 512];
    store.stands(w)
        && store.read(w, 1, &mut first[..h]).is_ok()
        && store.read(w, 2, &mut second[..h]).is_ok()
        && is_encoded(scheme, data, w, &first[..h], &second[..h])
}

// Whether two halves are those of unit w.
fn is_encoded<V: Scheme>(scheme: &V, data: &[u8], w: u8, first: &[u8], second: &[u8]) -> bool {
    let h = first.len();
    let mut pairs = first.iter().zip(second).enumerate();
    pairs.all(|(i, (x, y))| encoded(scheme, data, h, w, i) == Ok((*x, *y)))
}

// The two bytes of unit w at position i.
fn encoded<V: Scheme>(
    scheme: &V,
    data: &[u8],
    h: usize,
    w: u8,
    i: usize,
) -> Result<(u8, u8), Refusal> {
    let unit = h.saturating_mul(2);
    let a = column(data, unit, i);
    let b = column(data, unit, h.saturating_add(i));
    encode_unit(scheme, &a, &b, w)
}
