// Serving the clerk: the schemes of the walk, and a new set for each run.
use crate::clerk::{Clerk, Step, count_calls, spend};
use archive::order::{Asked, Line, Told};
use archive::serve::serve;
use codes::cauchy::Cauchy;
use codes::poly::Poly;
use codes::scheme::{GoesWith, NonXor, Rs, Scheme, Xor, XorPlus};
use codes::version::Version;
use sets::ticket::AnyTicket;
use std::alloc::{AllocError, Global};
use std::fmt;
use stores::area::AreaStore;
use stores::shelves::TwoShelf;

// The schemes of the walk. The sets of XOR+ stand on two shelves, all others in one area.
#[derive(Clone, Copy)]
pub enum Kind {
    Rs,
    Xor,
    XorPlus,
    NonXor,
    NonXorPoly,
}

impl fmt::Display for Kind {
    fn fmt<W: fmt::Write>(&self, f: &mut fmt::Formatter<W>) -> fmt::Result {
        f.pad(match self {
            Kind::Rs => "RS over CAUCHY",
            Kind::Xor => "XOR over CAUCHY",
            Kind::XorPlus => "XOR+ over CAUCHY",
            Kind::NonXor => "NONXOR over CAUCHY",
            Kind::NonXorPoly => "NONXOR over POLY",
        })
    }
}

impl Kind {
    // Where its sets stand: a second text beside that of `Display`.
    pub fn place(self) -> &'static str {
        match self {
            Kind::XorPlus => "on two shelves",
            _ => "in one area",
        }
    }

    pub fn version(self) -> Version {
        match self {
            Kind::Rs => Version::Rs,
            Kind::Xor => Version::Xor,
            Kind::XorPlus => Version::XorPlus,
            Kind::NonXor | Kind::NonXorPoly => Version::NonXor,
        }
    }
}

// A log of that many lines, before anything is noted in it: each line has the number 0, which is no refusal.
fn blank_log<'a>(heap: Global, len: usize) -> Result<Vec<Line<'a>>, AllocError> {
    let blank = Line {
        asked: Asked::Lose(0),
        told: Told::Declined(0),
    };
    vec![in heap; blank; len]
}

// Serves the steps on a new set with halves of that size. What was asked and told comes back.
pub fn run<'a>(
    heap: Global,
    kind: Kind,
    half: usize,
    steps: &[Step<'a>],
) -> Result<Vec<Line<'a>>, AllocError> {
    let mut log = blank_log(heap, count_calls(steps))?;
    if let Some(t) = serve_steps(kind, half, steps, None, log.as_mut_slice()) {
        spend(t);
    }
    Ok(log)
}

// The same with an old ticket in the clerk's hand: the first of a rebuild of unit 3, of another set.
pub fn run_with_old<'a>(
    heap: Global,
    kind: Kind,
    half: usize,
    steps: &[Step<'a>],
) -> Result<Vec<Line<'a>>, AllocError> {
    let mut log = blank_log(heap, count_calls(steps))?;
    let bytes = [0u8; 20];
    let mut old_log = blank_log(heap, 3)?;
    let old_steps = [Step::Fill(&bytes), Step::Lose(3), Step::Open(3)];
    let old = serve_steps(Kind::Rs, 1, &old_steps, None, old_log.as_mut_slice());
    if let Some(t) = serve_steps(kind, half, steps, old, log.as_mut_slice()) {
        spend(t);
    }
    Ok(log)
}

// Serves the steps on a new set with halves of that size, one call for each line of the log. The ticket that the clerk still
// holds at the end comes back. Each scheme is of another type, so none can be chosen as a value or a closure.
fn serve_steps<'s, 'a>(
    kind: Kind,
    half: usize,
    steps: &'s [Step<'a>],
    old: Option<AnyTicket>,
    log: &mut [Line<'a>],
) -> Option<AnyTicket> {
    let mut clerk = Clerk::new(steps, old);
    match kind {
        Kind::Rs => serve_in_area(Rs.over(Cauchy::new()), half, &mut clerk, log),
        Kind::Xor => serve_in_area(Xor.over(Cauchy::new()), half, &mut clerk, log),
        Kind::XorPlus => serve_on_shelves(XorPlus.over(Cauchy::new()), half, &mut clerk, log),
        Kind::NonXor => serve_in_area(NonXor.over(Cauchy::new()), half, &mut clerk, log),
        Kind::NonXorPoly => serve_in_area(NonXor.over(Poly::new()), half, &mut clerk, log),
    }
    clerk.leave()
}

// In one area, where the bytes of the two halves alternate.
fn serve_in_area<'s, 'a, V: Scheme + Drop>(
    scheme: V,
    half: usize,
    clerk: &mut Clerk<'s, 'a>,
    log: &mut [Line<'a>],
) {
    let half = half.min(512);
    let mut area = [0u8; 14_336];
    let store = AreaStore::new(&mut area[0..28 * half], half, 1);
    let set = serve(scheme, store, clerk, log);
    let (_scheme, _store) = set.into_parts();
}

// On two shelves: the data units with alternating halves, the parities with one half behind the other.
fn serve_on_shelves<'s, 'a, V: Scheme + Drop>(
    scheme: V,
    half: usize,
    clerk: &mut Clerk<'s, 'a>,
    log: &mut [Line<'a>],
) {
    let half = half.min(512);
    let mut lower = [0u8; 14_336];
    let mut upper = [0u8; 14_336];
    let store = TwoShelf::new(
        AreaStore::new(&mut lower[0..28 * half], half, 1),
        AreaStore::new(&mut upper[0..28 * half], half, half),
    );
    let set = serve(scheme, store, clerk, log);
    let (_scheme, _store) = set.into_parts();
}
