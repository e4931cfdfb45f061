// A list of halves to fetch.
ghost use Rattle.std.specs.Prelude.{◌≡◌, ◌≤◌, length};

// Up to twenty pairs of a unit number and a half number, in order: an array with its length beside it, since no call allocates.
#[derive(Clone, Copy)]
pub struct FetchList {
    pub(crate) halves: [(u8, u8); 20],
    pub(crate) len: usize,
    ghost within: { len ≤ 20 },
    ghost long: { length halves ≡ 20 },
}
