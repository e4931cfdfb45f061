// Forms: how a byte of a unit is made of the twenty data bytes at its position.
ghost use Rattle.std.specs.Prelude.{◌≡◌, ◌<◌, map, length, bit_xor, refl};
ghost use Rattle.std.proofs.Common.{sym, ap, ◌∙◌};
ghost use Rattle.std.specs.Simd.Lanes.{zip2};
ghost use Rattle.field.specs.Arithmetic.{gmul};
ghost use Rattle.field.specs.Forms.{Twenty, form_ok, form_zero, form_sum, form_times, form_single};
ghost use Rattle.std.proofs.lemmas.Simd.{length-zip2};
ghost use Rattle.std.proofs.lemmas.List.{length-map};
ghost use Rattle.field.specs.Entries.{zero_bytes, sum_bytes, times_bytes, sum_comm, sum_assoc, sum_unit, sum_self, times_left, times_right, times_twice, times_one};
ghost use Rattle.field.specs.FormSymbolLemmas.{row};

use crate::symbol::Symbol;

// A row of twenty bytes: the multipliers of a1..a10 and then of b1..b10.
#[derive(Clone, Copy)]
pub struct Form {
    pub at: [u8; 20],
}

impl Form {
    // The form of one of the twenty symbols, by its place from 0; of any other place the form of 0.
    pub fn single(place: u8) -> Form
        ensures { result ≡ form_single place }
    {
        let mut at = [0u8; 20];
        if place < 20 {
            at[place as usize] = 1;
        }
        Form { at }
    }
}

impl Symbol for Form {
    ghost ok = { form_ok };

    ghost zero = { form_zero };

    ghost sum = { form_sum };

    ghost times = { form_times };

    ghost space = { record {
      ok_zero = record { long = refl; bytes = zero_bytes 20 };
      ok_sum = λ x y a b. record { long = length-zip2 bit_xor x.at y.at (a.long ∙ sym b.long) ∙ a.long; bytes = sum_bytes x.at y.at a.bytes b.bytes };
      ok_times = λ c x h a. record { long = length-map x.at (gmul c) ∙ a.long; bytes = times_bytes c x.at h a.bytes };
      comm = λ x y. ap row (sum_comm x.at y.at);
      assoc = λ x y z. ap row (sum_assoc x.at y.at z.at);
      unit = λ x a. ap row (sum_unit 20 x.at a.long);
      self = λ x a. ap row (sum_self 20 x.at a.long);
      left = λ c d x. ap row (times_left c d x.at);
      right = λ c x y. ap row (times_right c x.at y.at);
      twice = λ c d x hc hd a. ap row (times_twice c d x.at hc hd a.bytes);
      one = λ x a. ap row (times_one x.at a.bytes);
    } };

    fn zero() -> Form {
        Form { at: [0; 20] }
    }

    fn sum(self, other: Form) -> Form {
        Form {
            at: xor_rows(&self.at, &other.at),
        }
    }

    fn times(self, c: u8) -> Form {
        Form {
            at: scale_row(c, &self.at),
        }
    }

    fn held(self) -> Form {
        twenty_bytes(&self.at);
        self
    }
}

// Does nothing: its clause says what is known of every row of twenty bytes.
fn twenty_bytes(at: &[u8])
    requires { length at.now ≡ 20 }
    ensures { Twenty at.now }
{
    let _first = at[0];
}

// The sum of two rows, byte by byte.
fn xor_rows(x: &[u8; 20], y: &[u8; 20]) -> [u8; 20]
    ensures { result ≡ zip2 bit_xor x.now y.now }
{
    std::array::from_fn(
        |i|
            requires { i < 20 }
        { x[i] ^ y[i] },
    )
}

// Each byte of a row, multiplied.
fn scale_row(c: u8, x: &[u8; 20]) -> [u8; 20]
    ensures { result ≡ map (gmul c) x.now }
{
    // in place: `map` over an array takes twice the time
    let mut at = *x;
    for byte in at.iter_mut() {
        *byte = crate::mul(c, *byte);
    }
    at
}
