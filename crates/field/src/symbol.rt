// Symbols: what the codes sum and multiply by bytes.
ghost use Rattle.std.specs.Prelude.{◌≡◌, ℕ, ◌<◌, min, length, bit_xor, slice_index, slice_index_or};
ghost use Rattle.field.specs.Arithmetic.{gmul};
ghost use Rattle.field.specs.Space.{Space, dot};
ghost use Rattle.field.specs.BytesSpace.{bytes};

// A kind of symbol: a module over the byte field.
pub trait Symbol: Sized {
    // What holds of every value that code can hold.
    ghost ok: { Self → Type 0 };

    ghost zero: { Self };

    ghost sum: { Self → Self → Self };

    ghost times: { ℕ → Self → Self };

    fn zero() -> Self
        ensures { result ≡ zero };

    fn sum(self, other: Self) -> Self
        ensures { result ≡ sum self other };

    fn times(self, c: u8) -> Self
        ensures { result ≡ times c self };

    // The symbol itself, which is one that code holds.
    fn held(self) -> Self
        ensures same { result ≡ self }
        ensures fine { ok self };

    ghost space: { Space ok zero sum times };
}

impl Symbol for u8 {
    ghost ok = { λ x. x < 256 };

    ghost zero = { 0 };

    ghost sum = { bit_xor };

    ghost times = { gmul };

    ghost space = { bytes };

    fn zero() -> u8 {
        0
    }

    fn sum(self, other: u8) -> u8 {
        self ^ other
    }

    fn times(self, c: u8) -> u8 {
        crate::mul(c, self)
    }

    fn held(self) -> u8 {
        self
    }
}

// The sum of products of bytes and symbols, taken in pairs; of the longer slice the rest is left out.
pub fn sum_of_products<S: Symbol + Copy>(multipliers: &[u8], symbols: &[S]) -> S
    ensures { result ≡ dot S.zero S.sum S.times (min (length multipliers.now) (length symbols.now)) (λ k. slice_index multipliers.now k) (λ k. slice_index_or symbols.now k S.zero) }
{
    let mut total = S::zero();
    for (multiplier, symbol) in multipliers.iter().zip(symbols) {
        total = total.sum(symbol.times(*multiplier));
    }
    total
}
