// Reads a request from the bytes of a line.
ghost use Rattle.std.specs.Prelude.{◌≡◌, ℕ, ◌+◌, ◌<◌, List, decimal, MatchOption, ◌≢◌};
ghost use Rattle.codes.specs.declared.version.Version.{Version as V};
ghost use Rattle.plate.specs.declared.request.CodeName.{CodeName as C};
ghost use Rattle.plate.specs.Requests.{word_of_version, word_of_code, IsWord, spaced, Right, Reads};

use crate::request::{CodeName, Refusal, Request};
use codes::version::Version;
use units::number::UnitNumber;

// What stands before the first space of a text, and behind it.
fn first_word(text: &[u8]) -> Option<(&[u8], &[u8])>
    ensures { MatchOption result (IsWord text.now) (λ p. (text.now ≡ spaced p.0.now p.1.now) × IsWord p.0.now) }
{
    let end = text.iter().position(|byte| *byte == b' ')?;
    Some((&text[..end], &text[end + 1..]))
}

// The version that a word names.
fn version_of(word: &[u8]) -> Option<Version>
    ensures { MatchOption result ((v : V) → word.now ≢ word_of_version v) (λ v. word.now ≡ word_of_version v) }
{
    match word {
        b"RS" => Some(Version::Rs),
        b"XOR" => Some(Version::Xor),
        b"XOR+" => Some(Version::XorPlus),
        b"NONXOR" => Some(Version::NonXor),
        _ => None,
    }
}

// The code that a word names.
fn code_of(word: &[u8]) -> Option<CodeName>
    ensures { MatchOption result ((c : C) → word.now ≢ word_of_code c) (λ c. word.now ≡ word_of_code c) }
{
    match word {
        b"CAUCHY" => Some(CodeName::Cauchy),
        b"POLY" => Some(CodeName::Poly),
        _ => None,
    }
}

// The value of a decimal digit.
fn digit(byte: u8) -> Option<u8>
    ensures { MatchOption result ((d : ℕ) → d < 10 → byte ≢ 48 + d) (λ d. (d < 10) × (byte ≡ 48 + d)) }
{
    match byte {
        b'0'..=b'9' => Some(byte - b'0'),
        _ => None,
    }
}

// The number that one or two digits write, with no zero before another digit.
fn number(digits: &[u8]) -> Option<u8>
    ensures { MatchOption result ((n : ℕ) → n < 100 → digits.now ≢ decimal n) (λ n. (n < 100) × (digits.now ≡ decimal n)) }
{
    match digits {
        [ones] => digit(*ones),
        [b'0', _] => None,
        [tens, ones] => Some(10 * digit(*tens)? + digit(*ones)?),
        _ => None,
    }
}

// The version, the code and the number that a line of the right form names.
fn named(line: &[u8]) -> Option<(Version, CodeName, u8)>
    ensures { MatchOption result ((v : V) (c : C) (n : ℕ) → Right line.now v c n → ⊥) (λ p. Right line.now p.0 p.1 p.2) }
{
    let (first, rest) = first_word(line)?;
    let (second, digits) = first_word(rest)?;
    let version = version_of(first)?;
    let code = code_of(second)?;
    if version == Version::XorPlus && code == CodeName::Poly {
        return None;
    }
    Some((version, code, number(digits)?))
}

pub fn read_request(line: &[u8]) -> Result<Request, Refusal>
    ensures { Reads line.now result }
{
    let (version, code, number) = named(line).ok_or(Refusal::Form)?;
    let unit = UnitNumber::try_from(number)?;
    Ok(Request {
        version,
        code,
        unit,
    })
}
