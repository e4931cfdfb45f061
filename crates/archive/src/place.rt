// A place for a read, held by value.
ghost use Rattle.std.specs.Prelude.{◌≤◌};

// Up to 1,024 bytes, the size of the largest unit, in fixed memory since no call allocates.
#[derive(Clone, Copy)]
pub struct Place {
    pub(crate) bytes: [u8; 1024],
    pub(crate) len: usize,
    ghost within: { len ≤ 1024 },
}
