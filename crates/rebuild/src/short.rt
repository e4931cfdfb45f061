// The rule of a short list: the first symbol of a lost data unit from the column of second symbols and its group.
ghost use Rattle.std.specs.Prelude.{◌≡◌, ◌<◌, slice_index_or};
ghost use Rattle.tables.specs.Multipliers.{entry};
ghost use Rattle.fillings.specs.Rebuilding.{piece as piece_of, piece_at, divided as divided_by};

use codes::encoder::Encoder;
use codes::version::Version;
use field::symbol::Symbol;

// The first symbol of the data position u, from the fetched first symbols x and second symbols y and the column b.
pub(crate) fn piece<S: Symbol + Copy>(
    encoder: &Encoder,
    x: &[S; 14],
    y: &[S; 14],
    b: &[S; 10],
    u: usize,
) -> S
    requires { u < 10 }
    ensures { result ≡ piece_of S.zero S.sum S.times encoder.now.version (entry encoder.now.table) (λ p. slice_index_or x.now p S.zero) (λ p. slice_index_or y.now p S.zero) (λ k. slice_index_or b.now k S.zero) u }
{
    match encoder.version.home(u) {
        None => lone(encoder, x, y, b, u),
        Some(l) => grouped(encoder, x, y, b, u, l),
    }
}

// In no group: the first symbol of 12 and the second symbols of 13 and 14, less the parities of b, divided.
fn lone<S: Symbol + Copy>(encoder: &Encoder, x: &[S; 14], y: &[S; 14], b: &[S; 10], u: usize) -> S
    requires { u < 10 }
    ensures { result ≡ piece_at S.zero S.sum S.times encoder.now.version (entry encoder.now.table) (λ p. slice_index_or x.now p S.zero) (λ p. slice_index_or y.now p S.zero) (λ k. slice_index_or b.now k S.zero) u 0 }
{
    let of_12 = x[11].sum(encoder.parity(b, 1));
    let of_13 = of_12.sum(y[12]).sum(encoder.parity(b, 2));
    let of_14 = of_13.sum(y[13]).sum(encoder.parity(b, 3));
    of_14.times(field::inv(encoder.table.rows[1].at[u]))
}

// In the group of parity l: that parity's second symbol, less the parity of b and the shares of the others.
fn grouped<S: Symbol + Copy>(
    encoder: &Encoder,
    x: &[S; 14],
    y: &[S; 14],
    b: &[S; 10],
    u: usize,
    l: usize,
) -> S
    requires { (u < 10) × ((0 < l) × (l < 4)) }
    ensures { result ≡ piece_at S.zero S.sum S.times encoder.now.version (entry encoder.now.table) (λ p. slice_index_or x.now p S.zero) (λ p. slice_index_or y.now p S.zero) (λ k. slice_index_or b.now k S.zero) u l }
{
    let taken = y[10 + l].sum(encoder.parity(b, l));
    divided(encoder, u, taken.sum(encoder.added_without(x, l, u)))
}

// The first symbol from its share: under NONXOR divided by the second row's multiplier.
fn divided<S: Symbol + Copy>(encoder: &Encoder, u: usize, share: S) -> S
    requires { u < 10 }
    ensures { result ≡ divided_by S.zero S.sum S.times encoder.now.version (entry encoder.now.table) u share }
{
    match encoder.version {
        Version::Rs | Version::Xor | Version::XorPlus => share,
        Version::NonXor => share.times(field::inv(encoder.table.rows[1].at[u])),
    }
}
