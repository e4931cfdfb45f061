// The forms of a unit: encoding run on the twenty data symbols themselves.
ghost use Rattle.std.specs.Prelude.{◌≡◌, ◌<◌, ◌≤◌};
ghost use Rattle.codes.specs.UnitForms.{singles as ten_from, forms_of};

use crate::encode::encode_unit;
use crate::refusal::Refusal;
use crate::scheme::Scheme;
use field::form::Form;

// The two forms of unit u.
pub fn unit_forms<V: Scheme>(scheme: &V, u: u8) -> Result<(Form, Form), Refusal>
    ensures { result ≡ forms_of (V.version scheme.now) (V.table scheme.now) u }
{
    encode_unit(scheme, &singles(0), &singles(10), u)
}

// The forms of ten symbols, from that with its 1 at the first place given.
fn singles(from: u8) -> [Form; 10]
    requires { from ≤ 10 }
    ensures { result ≡ ten_from from }
{
    std::array::from_fn(
        |k|
            requires { (from ≤ 10) × (k < 10) }
        { Form::single(from + k as u8) },
    )
}
