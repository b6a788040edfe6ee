// The client table in lent words, twelve to a row: the one place that knows how a row lies in words.
// Knows nothing of arena, control record or soundness; each function is total.
// Words of a row: 0 attached, 1 passed, 2 to 5 the holds, 6 swaps, 7 phase, 8 cell, 9 hold, 10 word, 11 value.
#![tactic(auto)]

ghost use Rattle.std.specs.Prelude.{◌≡◌, ◌+◌, ◌*◌, ◌≤◌, length, option_copied};
ghost use Rattle.model.specs.Choice.{pick, any, total};
ghost use Rattle.model.specs.Arena.{laid};
ghost use Rattle.model.specs.Rows.{swaps_of, all_passed};
ghost use Rattle.model.specs.Refusals.{holds_cell};
ghost use Rattle.table.specs.Words.{row_words, whole, words_at, phase_in, row_in, is_phase, is_row, row_at, rows_read};
ghost use Rattle.table.specs.Words.{busy_words, put_row, put_phase, put_swaps, each_row, clear_mark, freshen};

use model::{Access, Phase, Row};
use row::{access_of, is_among};

// The rows of the table, "one for each client".
const ROWS: u32 = 8;

// "each empty (65535) or a cell"
const NONE: u32 = 65535;

// Where no row is: unattached and not passed, which breaks R6.
const NO_ROW: Row = Row {
    attached: false,
    passed: false,
    holds: [NONE; 4],
    swaps: 0,
    phase: Phase::Resting,
};

// "Fresh .. leaves eight unattached rows: passed, resting, holds empty, swaps 0."
const FRESH_ROW: Row = Row {
    passed: true,
    ..NO_ROW
};

// The words of a phase: 0 resting, 2 ready to read, 3 ready to write, 4 waiting to read, 5 waiting to write; unused words are 0.
#[derive(Clone, Copy, PartialEq, Eq, Default)]
pub struct PhaseWords {
    pub tag: u32,
    pub cell: u32,
    pub hold: u32,
    pub word: u32,
    pub value: u32,
}

impl From<PhaseWords> for Phase {
    ghost use Rattle.std.specs.Prelude.{◌≡◌};
    ghost use Rattle.table.specs.Words.{phase_of};

    ghost from_gives = { λ words phase. phase ≡ phase_of words };

    #[tactic(auto, unfolding(crate::specs::Words::phase_of))]
    fn from(words: PhaseWords) -> Phase {
        let x = access_of(words.tag % 2 == 1, words.hold, words.word, words.value);
        match words.tag {
            0..=1 => Phase::Resting,
            2..=3 => Phase::Ready(words.cell, x),
            _ => Phase::Waiting(words.cell, x),
        }
    }
}

fn busy_words(read: u32, write: u32, cell: u32, x: Access) -> PhaseWords
    ensures { result ≡ busy_words read write cell x }
{
    match x {
        Access::Read { hold, word } => PhaseWords {
            tag: read,
            cell,
            hold,
            word,
            value: 0,
        },
        Access::Write { hold, word, value } => PhaseWords {
            tag: write,
            cell,
            hold,
            word,
            value,
        },
    }
}

impl From<Phase> for PhaseWords {
    ghost use Rattle.std.specs.Prelude.{◌≡◌};
    ghost use Rattle.table.specs.Words.{phase_words};

    ghost from_gives = { λ phase words. words ≡ phase_words phase };

    fn from(phase: Phase) -> PhaseWords {
        match phase {
            Phase::Resting => PhaseWords::default(),
            Phase::Ready(cell, x) => busy_words(2, 3, cell, x),
            Phase::Waiting(cell, x) => busy_words(4, 5, cell, x),
        }
    }
}

// The words of a row's phase.
fn phase_in(row: &[u32; 12]) -> PhaseWords
    ensures { result ≡ phase_in row.now 0 }
{
    PhaseWords {
        tag: row[7],
        cell: row[8],
        hold: row[9],
        word: row[10],
        value: row[11],
    }
}

// The row in twelve words, not asking whether they mean one.
#[tactic(auto, unfolding(crate::specs::Words::row_in))]
fn row_of(words: &[u32; 12]) -> Row
    ensures { result ≡ row_in words.now 0 }
{
    Row {
        attached: words[0] != 0,
        passed: words[1] != 0,
        holds: [words[2], words[3], words[4], words[5]],
        swaps: words[6],
        phase: Phase::from(phase_in(words)),
    }
}

// The twelve words of row i, where they lie whole in the table.
fn words_of(t: &[u32], i: u32) -> Option<&[u32; 12]>
    ensures { option_copied result ≡ words_at t.now i }
{
    let (rows, _) = t.as_chunks();
    rows.get(i as usize)
}

// Row i as its words have it, for the steps: whether they mean a row is the audit's matter.
pub fn row_at(t: &[u32], i: u32) -> Row
    ensures { result ≡ row_in t.now (12 * i) }
{
    words_of(t, i).map_or(NO_ROW, row_of)
}

// No other number, unused words 0, "value 0 for a read".
#[tactic(auto, unfolding(crate::specs::Words::is_phase))]
fn is_phase(words: PhaseWords) -> bool
    ensures { result ≡ is_phase words }
{
    match words.tag {
        0 => words == PhaseWords::default(),
        2 | 4 => words.value == 0,
        3 | 5 => true,
        _ => false,
    }
}

// Whether twelve words mean a row.
#[tactic(auto, unfolding(crate::specs::Words::is_row))]
fn is_row(words: &[u32; 12]) -> bool
    ensures { result ≡ is_row words.now 0 }
{
    words[0] <= 1 && words[1] <= 1 && is_phase(phase_in(words))
}

// Row i as the audit sees it: "Row bytes that mean no row .. break R6".
pub fn checked_row_at(t: &[u32], i: u32) -> Row
    ensures { result ≡ row_at t.now i }
{
    if words_of(t, i).is_some_and(is_row) {
        row_at(t, i)
    } else {
        NO_ROW
    }
}

// The words of a row.
fn row_words(row: Row) -> [u32; 12]
    ensures { result ≡ row_words row }
{
    let [h0, h1, h2, h3] = row.holds;
    let p = PhaseWords::from(row.phase);
    [
        row.attached as u32,
        row.passed as u32,
        h0,
        h1,
        h2,
        h3,
        row.swaps,
        p.tag,
        p.cell,
        p.hold,
        p.word,
        p.value,
    ]
}

// Words of row i from its word `from` on; of a row that does not lie whole in the table none is stored.
fn put_words(t: &mut [u32], i: u32, from: usize, words: &[u32])
    requires { from + length words.now ≤ 12 }
    ensures { t.new ≡ pick (whole t.old (12 * i)) (laid t.old (12 * i + from) words.now) t.old }
{
    let k = 12 * (i as usize);
    if k + 11 < t.len() {
        t[k + from..k + from + words.len()].copy_from_slice(words);
    }
}

// The phase of row i alone: READ, WRITE and GO.
#[tactic(auto, unfolding(crate::specs::Words::put_phase))]
pub fn put_phase_at(t: &mut [u32], i: u32, phase: Phase)
    ensures { t.new ≡ put_phase t.old i phase }
{
    let p = PhaseWords::from(phase);
    put_words(t, i, 7, &[p.tag, p.cell, p.hold, p.word, p.value]);
}

// Row i becomes `row`.
#[tactic(auto, unfolding(crate::specs::Words::put_row))]
pub fn put_row_at(t: &mut [u32], i: u32, row: Row)
    ensures { t.new ≡ put_row t.old i row }
{
    put_words(t, i, 0, &row_words(row));
}

// The swaps of row i alone: GO.
#[tactic(auto, unfolding(crate::specs::Words::put_swaps))]
pub fn put_swaps_at(t: &mut [u32], i: u32, swaps: u32)
    ensures { t.new ≡ put_swaps t.old i swaps }
{
    record::store(t, 12 * (i as usize) + 6, swaps);
}

#[tactic(auto, unfolding(crate::specs::Words::clear_mark))]
fn clear_mark(t: &mut [u32], i: u32)
    ensures { t.new ≡ clear_mark t.old i }
{
    let k = 12 * (i as usize);
    let attached = record::load(t, k) != 0;
    record::store(t, k + 1, !attached as u32);
}

// "Clearing marks sets attached rows to not passed and unattached rows to passed."
#[tactic(auto, using(crate::proofs::Loops::each_none, crate::proofs::Loops::each_more))]
pub fn clear_marks(t: &mut [u32])
    ensures { t.new ≡ each_row clear_mark t.old 8 }
{
    for i in 0..ROWS {
        clear_mark(t, i);
    }
}

// The barriers: "if any row has not passed".
pub fn all_passed(t: &[u32]) -> bool
    ensures { result ≡ all_passed (rows_read t.now) }
{
    (0..ROWS).all(|i| row_at(t, i).passed)
}

// 11 "RETIRE of a record some row holds"
pub fn holds_cell(t: &[u32], cell: u32) -> bool
    ensures { result ≡ any (holds_cell cell) (rows_read t.now) }
{
    (0..ROWS).any(|i| is_among(row_at(t, i).holds, cell))
}

// Replay's total "all swaps": a sum over eight rows, which needs more than 32 bits.
pub fn all_swaps(t: &[u32]) -> u64
    ensures { result ≡ total swaps_of (rows_read t.now) }
{
    (0..ROWS).map(|i| u64::from(row_at(t, i).swaps)).sum()
}

// "Fresh .. leaves eight unattached rows: passed, resting, holds empty, swaps 0."
#[tactic(auto, using(crate::proofs::Loops::each_none, crate::proofs::Loops::each_more))]
pub fn fresh_rows(t: &mut [u32])
    ensures { t.new ≡ each_row freshen t.old 8 }
{
    for i in 0..ROWS {
        put_row_at(t, i, FRESH_ROW);
    }
}
