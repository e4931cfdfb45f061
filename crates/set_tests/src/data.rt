// Data for the tests.

// Bytes that look random.
pub(crate) fn mixed<const N: usize>(seed: u32) -> [u8; N] {
    let mut bytes = [0u8; N];
    let mut state = seed;
    for byte in bytes.iter_mut() {
        state = state.wrapping_mul(1_664_525).wrapping_add(1_013_904_223);
        *byte = ((state >> 16) % 256) as u8;
    }
    bytes
}

// Where data unit u begins, if a unit has so many bytes.
fn begin(u: u8, unit: usize) -> usize {
    (u as usize).saturating_sub(1).saturating_mul(unit)
}

// Whether these bytes are unit u of the data.
pub(crate) fn is_unit(data: &[u8], u: u8, unit: &[u8]) -> bool {
    let rest = data.get(begin(u, unit.len())..);
    rest.is_some_and(|rest| rest.starts_with(unit))
}

// Gives unit u of the data new bytes.
pub(crate) fn replace_unit(data: &mut [u8], u: u8, unit: &[u8]) {
    if let Some(rest) = data.get_mut(begin(u, unit.len())..)
        && let Some(place) = rest.get_mut(..unit.len())
    {
        place.copy_from_slice(unit);
    }
}

// Byte j of each of the ten data units of so many bytes; 0 behind the end.
pub(crate) fn column(data: &[u8], unit: usize, j: usize) -> [u8; 10] {
    std::array::from_fn(|k| {
        let at = k.saturating_mul(unit).saturating_add(j);
        data.get(at).copied().unwrap_or(0)
    })
}
