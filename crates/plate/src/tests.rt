// Every line of the right form, lines of a wrong form, a page, and where a line ends.
use crate::input::{Source, read_line};
use crate::line::read_request;
use crate::page::{page, refusal_text};
use crate::request::{CodeName, Refusal};
use codes::version::Version;
use std::alloc::Global;
use std::process::Abort;
use std::test::Fail;

fn expected(
    version: Version,
    code: CodeName,
    unit: u8,
) -> Result<(Version, CodeName, u8), Refusal> {
    match (version, code) {
        (Version::XorPlus, CodeName::Poly) => Err(Refusal::Form),
        _ if 0 < unit && unit < 15 => Ok((version, code, unit)),
        _ => Err(Refusal::Unit),
    }
}

// What a line asks for.
fn read(line: &[u8]) -> Result<(Version, CodeName, u8), Refusal> {
    let request = read_request(line)?;
    Ok((request.version, request.code, request.unit.number()))
}

fn check_numbers(
    rt: &impl Abort,
    heap: Global,
    version: (Version, &str),
    code: (CodeName, &str),
) -> Result<(), Fail> {
    for unit in 0..100u8 {
        let v = version.1;
        let c = code.1;
        let line = format!(in heap; "{v} {c} {unit}")?;
        assert!(rt; read(line.as_bytes()) == expected(version.0, code.0, unit));
    }
    Ok(())
}

#[test]
fn reads_every_line_of_the_right_form(rt: HostRuntime) -> Result<(), Fail> {
    let versions = [
        (Version::Rs, "RS"),
        (Version::Xor, "XOR"),
        (Version::XorPlus, "XOR+"),
        (Version::NonXor, "NONXOR"),
    ];
    for version in versions {
        check_numbers(&rt, rt.alloc(), version, (CodeName::Cauchy, "CAUCHY"))?;
        check_numbers(&rt, rt.alloc(), version, (CodeName::Poly, "POLY"))?;
    }
    Ok(())
}

// Lines of a wrong form, with a bar between each two.
const WRONG: &str =
    "| |RS|RS |RS CAUCHY|RS CAUCHY |RS 1|CAUCHY 1|CAUCHY RS 1|rs CAUCHY 1|RS cauchy 1|Rs Cauchy 1| RS CAUCHY 1|RS  CAUCHY 1|RS CAUCHY  1|RS CAUCHY 1 |RS\tCAUCHY 1|RS CAUCHY\t1|RS CAUCHY 1\r|RS CAUCHY 1\n|RS CAUCHY 1\0|\0RS CAUCHY 1|RS CAUCHY 00|RS CAUCHY 01|RS CAUCHY 100|RS CAUCHY 001|RS CAUCHY +1|RS CAUCHY -1|RS CAUCHY 1a|RS CAUCHY \u{661}|XOR+ POLY 1|XOR+ POLY 0|XOR + CAUCHY 1|NONXOR+ CAUCHY 1";

#[test]
fn refuses_other_lines(rt: HostRuntime) {
    for line in WRONG.split('|') {
        assert!(rt; read_request(line.as_bytes()) == Err(Refusal::Form));
    }
    assert!(rt; read_request(b"RS CAUCHY \xb1") == Err(Refusal::Form));
}

#[test]
fn writes_the_page_of_a_unit(rt: HostRuntime) -> Result<(), Fail> {
    let first = [0, 0, 0, 1, 1, 1, 1, 1, 1, 1, 1, 1, 1, 1, 1, 1, 1, 1, 1, 1];
    let second = [
        1, 1, 1, 0, 0, 0, 0, 0, 0, 0, 1, 1, 1, 1, 1, 1, 1, 1, 10, 255,
    ];
    let text = page(rt.alloc(), &first, &second, &[(1, 1), (9, 2), (10, 1)])?;
    assert_eq!(rt;
        text.as_str(),
        "0 0 0 1 1 1 1 1 1 1 1 1 1 1 1 1 1 1 1 1\n1 1 1 0 0 0 0 0 0 0 1 1 1 1 1 1 1 1 10 255\n3 1.1 9.2 10.1\n"
    );
    assert_eq!(rt; refusal_text(rt.alloc(), Refusal::Unit)?.as_str(), "1\n");
    assert_eq!(rt; refusal_text(rt.alloc(), Refusal::Form)?.as_str(), "12\n");
    Ok(())
}

// Gives the bytes of a text, and counts the calls.
#[derive(Drop)]
struct Feed<'a> {
    rest: &'a [u8],
    calls: usize,
}

impl Source for Feed<'_> {
    ghost gives = { λ _ _ _. Unit {0} };

    fn next_byte(&mut self) -> Option<u8> {
        self.calls = self.calls.wrapping_add(1);
        let (first, rest) = self.rest.split_first()?;
        self.rest = rest;
        Some(*first)
    }
}

fn check_line(rt: &impl Abort, input: &[u8], line: &[u8], calls: usize) {
    let mut feed = Feed {
        rest: input,
        calls: 0,
    };
    let read = read_line(&mut feed);
    assert!(rt; read.as_slice() == line);
    assert_eq!(rt; feed.calls, calls);
}

#[test]
fn stops_at_the_end_of_the_line(rt: HostRuntime) {
    check_line(&rt, b"", b"", 1);
    check_line(&rt, b"\nRS", b"", 1);
    check_line(&rt, b"RS CAUCHY 1", b"RS CAUCHY 1", 12);
    check_line(&rt, b"RS CAUCHY 1\nRS CAUCHY 2\n", b"RS CAUCHY 1", 12);
    check_line(&rt, b"NONXOR CAUCHY 14\n", b"NONXOR CAUCHY 14", 17);
    check_line(&rt, b"0123456789abcdefghij", b"0123456789abcdefg", 17);
}
