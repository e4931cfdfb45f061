// The text that is printed.
ghost use Rattle.std.specs.Prelude.{◌≡◌, ◌∷◌, ◌++◌, map, length, IfOk, string_bytes, decimal, OnOk};
ghost use Rattle.plate.specs.Pages.{line_text, entry_text, page_text, text_of_refusal};

use crate::request::Refusal;
use std::alloc::{AllocError, Global};

fn write_forms(text: &mut String, forms: &[u8]) -> Result<(), AllocError>
    ensures { OnOk result (string_bytes text.new ≡ string_bytes text.old ++ line_text (map decimal forms.now)) }
{
    let Some((first, rest)) = forms.split_first() else {
        return writeln!(text);
    };
    write!(text, "{first}")?;
    for form in rest {
        write!(text, " {form}")?;
    }
    writeln!(text)
}

fn write_halves(text: &mut String, halves: &[(u8, u8)]) -> Result<(), AllocError>
    ensures { OnOk result (string_bytes text.new ≡ string_bytes text.old ++ line_text (decimal (length halves.now) ∷ map entry_text halves.now)) }
{
    let count = halves.len();
    write!(text, "{count}")?;
    for (unit, half) in halves {
        write!(text, " {unit}.{half}")?;
    }
    writeln!(text)
}

fn write_page(
    text: &mut String,
    first: &[u8; 20],
    second: &[u8; 20],
    halves: &[(u8, u8)],
) -> Result<(), AllocError>
    ensures { OnOk result (string_bytes text.new ≡ string_bytes text.old ++ page_text first.now second.now halves.now) }
{
    write_forms(text, first)?;
    write_forms(text, second)?;
    write_halves(text, halves)
}

pub fn page(
    heap: Global,
    first: &[u8; 20],
    second: &[u8; 20],
    halves: &[(u8, u8)],
) -> Result<String, AllocError>
    ensures { IfOk result (λ s. string_bytes s ≡ page_text first.now second.now halves.now) }
{
    let mut text = String::new(heap);
    write_page(&mut text, first, second, halves)?;
    Ok(text)
}

pub fn refusal_text(heap: Global, refusal: Refusal) -> Result<String, AllocError>
    ensures { IfOk result (λ s. string_bytes s ≡ text_of_refusal refusal) }
{
    let number = refusal.number();
    format!(in heap; "{number}\n")
}
