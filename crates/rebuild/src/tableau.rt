// Solving: every position of a codeword as a combination of ten chosen ones, computed once for a choice.
ghost use Rattle.std.specs.Prelude.{◌≡◌, ℕ, ◌<◌, false, length, ◌==◌, bit_xor, slice_index, slice_index_or, slice_set};
ghost use Rattle.field.specs.Arithmetic.{gmul};
ghost use Rattle.tables.specs.Codewords.{Sound, bit, count};
ghost use Rattle.tables.specs.Multipliers.{entry};
ghost use Rattle.rebuild.specs.Tableaus.{row, ten, start_at, exchanged, Slot, Solved};

use tables::table::Table;

// The ten chosen positions, their order, and every position as a combination of them: its row has a coefficient for each slot of
// the basis.
#[derive(Clone, Copy)]
pub(crate) struct Tableau {
    pub(crate) chosen: [bool; 14],
    pub(crate) basis: [u8; 10],
    pub(crate) rows: [[u8; 10]; 14],
    ghost places: { (k : ℕ) → k < 10 → slice_index basis k < 14 },
}

impl Tableau {
    // The tableau of ten chosen positions: from the data positions, each chosen parity is exchanged for an unchosen position.
    pub(crate) fn solve(table: &Table, chosen: &[bool; 14]) -> Tableau
        requires { (Sound (entry table.now)) × (count 14 (λ p. slice_index_or chosen.now p false) ≡ 10) }
        ensures chosen { result.chosen ≡ chosen.now }
        ensures solved { Solved (entry table.now) (λ p. slice_index_or chosen.now p false) result.rows result.basis }
    {
        let mut tableau = Tableau::start(table, chosen);
        // by number, since q names a row and is written into the basis
        for q in 10..14usize {
            if chosen[q] {
                let Some(i) = tableau.find_slot(q) else {
                    unreachable()
                };
                tableau.exchange(q, i);
            }
        }
        tableau
    }

    // The tableau whose basis is the data positions.
    fn start(table: &Table, chosen: &[bool; 14]) -> Tableau
        ensures chosen { result.chosen ≡ chosen.now }
        ensures basis { (k : ℕ) → k < 10 → slice_index result.basis k ≡ k }
        ensures rows { (p : ℕ) → p < 14 → row result.rows p ≡ ten (start_at (entry table.now) p) }
    {
        let rows = std::array::from_fn(
            |p| -> [u8; 10]
                requires { p < 14 }
                ensures { result ≡ ten (start_at (entry table.entry.now) p) }
            { std::array::from_fn(|k| first_coefficient(table, p, k)) },
        );
        Tableau {
            chosen: *chosen,
            basis: [0, 1, 2, 3, 4, 5, 6, 7, 8, 9],
            rows,
        }
    }

    // A slot whose basis position is not chosen and where the row of q is not 0.
    fn find_slot(&self, q: usize) -> Option<usize>
        requires { q < 14 }
        ensures { Slot self.now.rows self.now.basis self.now.chosen q result }
    {
        let mut slots = self.basis.iter().zip(&self.rows[q]);
        slots.position(|(p, coefficient)| !self.chosen[*p as usize] && *coefficient != 0)
    }

    // Position q takes slot i of the basis.
    fn exchange(&mut self, q: usize, i: usize)
        requires { (q < 14) × (i < 10) }
        ensures chosen { self.new.chosen ≡ self.old.chosen }
        ensures basis { self.new.basis ≡ slice_set self.old.basis i q }
        ensures size { length self.new.rows ≡ 14 }
        ensures rows { (p : ℕ) → p < 14 → row self.new.rows p ≡ ten (exchanged self.old.rows q i p) }
    {
        let pivot = pivot_row(self.rows[q], i);
        let by = field::inv(self.rows[q][i]);
        for row in self.rows.iter_mut() {
            *row = add(row, field::mul(row[i], by), &pivot);
        }
        self.basis[i] = q as u8;
    }
}

// The coefficient of position p in slot k where the basis is the data positions.
fn first_coefficient(table: &Table, p: usize, k: usize) -> u8
    requires { (p < 14) × (k < 10) }
    ensures { result ≡ start_at (entry table.now) p k }
{
    if p < 10 {
        u8::from(k == p)
    } else {
        table.multiplier((p - 9) as u8, (k + 1) as u8)
    }
}

// A row with 1 added in slot i.
fn pivot_row(mut row: [u8; 10], i: usize) -> [u8; 10]
    requires { i < 10 }
    ensures { (k : ℕ) → k < 10 → slice_index result k ≡ bit_xor (slice_index row k) (bit (k == i)) }
{
    row[i] ^= 1;
    row
}

// A row with a multiple of another added.
fn add(row: &[u8; 10], by: u8, other: &[u8; 10]) -> [u8; 10]
    ensures { result ≡ ten (λ k. bit_xor (slice_index row.now k) (gmul by (slice_index other.now k))) }
{
    std::array::from_fn(|k| row[k] ^ field::mul(by, other[k]))
}
