// Room for the halves of a list: up to twenty, each of up to 512 bytes.
ghost use Rattle.std.specs.Prelude.{◌≡◌, length};

#[derive(Drop)]
pub(crate) struct Room {
    pub(crate) halves: [[u8; 512]; 20],
    ghost long: { length halves ≡ 20 },
}

impl Room {
    // Zeros.
    pub(crate) fn new() -> Room {
        Room {
            halves: [[0; 512]; 20],
        }
    }
}
