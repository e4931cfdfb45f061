// The byte field: product, inverse and quotient, and what can be summed and multiplied by a byte.

#![tactic(auto)]

ghost use Rattle.std.specs.Prelude.{◌≡◌};
ghost use Rattle.field.specs.Arithmetic.{gmul, inverse, quotient};
ghost use Rattle.field.specs.Laws.{Field};

pub mod form;
pub mod symbol;
mod tables;
#[cfg(test)]
mod tests;

use tables::{exp_opposite, exp_sum, log};

// The product of two bytes modulo 285: the sum of their logarithms, raised again.
pub fn mul(a: u8, b: u8) -> u8
    ensures { result ≡ gmul a b }
{
    if a == 0 || b == 0 {
        0
    } else {
        exp_sum(log(a), log(b))
    }
}

// The inverse of a byte, and of 0 the byte 0. With it the bytes are a field.
pub fn inv(x: u8) -> u8
    ensures value { result ≡ inverse x }
    ensures laws { Field }
{
    if x == 0 { 0 } else { exp_opposite(log(x)) }
}

// The quotient of two bytes, and by 0 the byte 0.
pub fn div(a: u8, b: u8) -> u8
    ensures { result ≡ quotient a b }
{
    mul(a, inv(b))
}
