// The text that is printed for a line.
ghost use Rattle.std.specs.Prelude.{◌≡◌, ◌≢◌, ℕ, List, take, IfOk, string_bytes};
ghost use Rattle.codes.specs.declared.version.Version.TheVariants.{XorPlus as xor_plus};
ghost use Rattle.plate.specs.Printed.{Printed, table_page, page_of_unit};
ghost use Rattle.plate.specs.Requests.{limit, Admitted};

use crate::line::read_request;
use crate::page::{page, refusal_text};
use crate::request::{CodeName, Request};
use codes::base::BaseCode;
use codes::cauchy::Cauchy;
use codes::fetch::{fetch_list, standing_without};
use codes::forms::unit_forms;
use codes::poly::Poly;
use codes::scheme::{GoesWith, NonXor, Over, Rs, Xor, XorPlus};
use codes::version::Version;
use std::alloc::{AllocError, Global};
use units::number::UnitNumber;

// The page of a unit under a version over a base code.
fn scheme_page<K: GoesWith<C> + Drop, C: BaseCode + Drop>(
    heap: Global,
    kind: K,
    code: C,
    unit: UnitNumber,
) -> Result<String, AllocError>
    ensures { IfOk result (λ s. string_bytes s ≡ table_page K.version (C.table code) unit.number) }
{
    let number = unit.number();
    let list = fetch_list(K::version(), &standing_without(&[number]), number);
    match unit_forms(&Over { kind, code }, number) {
        Ok((first, second)) => page(heap, &first.at, &second.at, list.halves()),
        Err(_) => unreachable(),
    }
}

// The page of a unit under a version that goes with every base code.
fn code_page<C: BaseCode + Drop>(
    heap: Global,
    version: Version,
    code: C,
    unit: UnitNumber,
) -> Result<String, AllocError>
    requires { version ≢ xor_plus }
    ensures { IfOk result (λ s. string_bytes s ≡ table_page version (C.table code) unit.number) }
{
    match version {
        Version::Rs => scheme_page(heap, Rs, code, unit),
        Version::Xor => scheme_page(heap, Xor, code, unit),
        // no type of scheme has XOR+ over every code
        Version::XorPlus => unreachable(),
        Version::NonXor => scheme_page(heap, NonXor, code, unit),
    }
}

// The page of the unit that a request names.
fn unit_page(heap: Global, request: Request) -> Result<String, AllocError>
    requires { Admitted request.version request.code }
    ensures { IfOk result (λ s. string_bytes s ≡ page_of_unit request.version request.code request.unit.number) }
{
    let version = request.version;
    let unit = request.unit;
    match (version, request.code) {
        (Version::XorPlus, CodeName::Cauchy) => scheme_page(heap, XorPlus, Cauchy::new(), unit),
        (_, CodeName::Cauchy) => code_page(heap, version, Cauchy::new(), unit),
        (_, CodeName::Poly) => code_page(heap, version, Poly::new(), unit),
    }
}

// The line may be cut after `limit` bytes: the answer is the same.
pub fn answer(heap: Global, line: &[u8]) -> Result<String, AllocError>
    ensures printed { IfOk result (λ s. Printed line.now (string_bytes s)) }
    ensures cut { IfOk result (λ s. (whole : List ℕ) → line.now ≡ take limit whole → Printed whole (string_bytes s)) }
{
    match read_request(line) {
        Ok(request) => unit_page(heap, request),
        Err(refusal) => refusal_text(heap, refusal),
    }
}
