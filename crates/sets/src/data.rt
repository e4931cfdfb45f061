// Data for a set: ten units in a row, each its first half and then its second.
ghost use Rattle.std.specs.Prelude.{◌≡◌, ◌*◌, ◌≤◌, length};

#[derive(Clone, Copy)]
pub(crate) struct Data<'a> {
    pub(crate) bytes: &'a [u8],
    // how many bytes a half has
    pub(crate) size: usize,
    ghost small: { size ≤ 512 },
    ghost whole: { length bytes.now ≡ 20 * size },
}
