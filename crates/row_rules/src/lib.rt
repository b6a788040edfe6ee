// R6 and R8 decided on every row of the table: its holds, its phase, its swaps.
// R6 is asked where R1 holds: a present record is then found by its label. Changes nothing.
#![tactic(auto)]

ghost use Rattle.std.specs.Prelude.{◌≡◌, true, false, ◌≤◌, eqb, MatchOption};
ghost use Rattle.model.specs.Choice.{all, any};
ghost use Rattle.model.specs.Arena.{none};
ghost use Rattle.model.specs.Rules.{detached_right, hold_right, access_right, phase_right, passed_right, row_right, R1, R6};
ghost use Rattle.model.specs.Rules.{flag_up, swaps_right, R8};
ghost use Rattle.model.proofs.Readings.{owed};
ghost use Rattle.table.specs.Words.{rows_of};

use blocks::{is_early, is_late};
use model::{Access, Control, Move, Phase, Row};
use record::{Header, lengths_at, read_header, read_label};
use row::{hold_number, hold_of, is_among, is_busy, word_number};

// "empty (65535)"
const NONE: u32 = 65535;

const ROWS: u32 = 8;

// eight rows of twelve words; a table of another size has no rows
const TABLE_WORDS: usize = 96;

// Control record and arena of which R1 holds: each present record is labelled with its meter.
// The fields are public: whoever has R1 by proof builds the value, and R1 is not asked again.
#[derive(Clone, Copy)]
pub struct Records<'a> {
    pub control: &'a Control,
    pub arena: &'a [u32],
    pub ghost right: { R1 control.now.dir arena.now ≡ true },
}

impl<'a> Records<'a> {
    // R1, asked.
    pub fn found(control: &'a Control, arena: &'a [u32]) -> Option<Self>
        ensures { MatchOption result (R1 control.now.dir arena.now ≡ false)
            (λ r. (R1 control.now.dir arena.now ≡ true) × (r.control.now ≡ control.now)
            × (r.arena.now ≡ arena.now)) }
    {
        if record_rules::records_right(control, arena) {
            Some(Records { control, arena })
        } else {
            None
        }
    }

    // "a present record": after R1 its label names the only entry that can be this cell.
    fn is_present(self, c: u32) -> bool
        requires { c ≡ 65535 → ⊥ }
        ensures { result ≡ any (eqb c) self.entry.control.now.dir }
    {
        let label = read_label(self.arena, c);
        let entry = self.control.dir.get(label.meter as usize);
        entry.is_some_and(|&cell| cell as u32 == c)
    }

    // R6 "A hold is empty, a present record, or the old block."
    #[tactic(auto, unfolding(model::specs::Rules::hold_right))]
    fn hold_right(self, h: u32) -> bool
        ensures { result ≡ hold_right self.entry.control.now.dir self.entry.control.now.mv h }
    {
        let mv = &self.control.mv;
        h == NONE || self.is_present(h) || (is_late(mv.stage) && h == mv.from as u32)
    }

    fn holds_right(self, holds: [u32; 4]) -> bool
        ensures { result ≡ all (hold_right self.entry.control.now.dir self.entry.control.now.mv)
            holds }
    {
        holds.iter().all(|&h| self.hold_right(h))
    }

    #[tactic(auto, unfolding(model::specs::Rules::row_right))]
    fn row_right(self, row: Row) -> bool
        ensures { result ≡ row_right self.entry.control.now.dir self.entry.control.now.mv
            self.entry.arena.now row }
    {
        detached_right(row)
            && self.holds_right(row.holds)
            && phase_right(self.arena, row)
            && passed_right(&self.control.mv, row)
    }

    // R6, on every row of the table.
    #[tactic(auto, using(table::proofs::Rows::no_rows), unfolding(model::specs::Rules::R6))]
    pub fn rows_right(self, table: &[u32]) -> bool
        ensures { result ≡ R6 self.entry.control.now.dir self.entry.control.now.mv
            self.entry.arena.now (rows_of table.now) }
    {
        if table.len() != TABLE_WORDS {
            return true;
        }
        (0..ROWS).all(|i| self.row_right(table::checked_row_at(table, i)))
    }
}

// "Unattached rows are as after DETACH."
#[tactic(auto, unfolding(model::specs::Rules::detached_right))]
fn detached_right(row: Row) -> bool
    ensures { result ≡ detached_right row }
{
    row.attached || (row.passed && all_empty(row.holds) && !is_busy(row.phase))
}

#[tactic(auto, using(crate::proofs::Holds::empty_four))]
fn all_empty(holds: [u32; 4]) -> bool
    ensures { result ≡ all (eqb none) holds }
{
    holds == [NONE; 4]
}

// "A busy row's hold is filled, its word within the payload"
#[tactic(auto, unfolding(model::specs::Rules::access_right))]
fn access_right(arena: &[u32], row: Row, x: Access) -> bool
    ensures { result ≡ access_right arena.now row x }
{
    let h = hold_of(row.holds, hold_number(x));
    h != NONE && word_number(x) < lengths_at(arena, h).payload
}

// "waiting is on its hold's cell; ready is at its hold's cell or that header's target"
fn phase_right(arena: &[u32], row: Row) -> bool
    ensures { result ≡ phase_right arena.now row row.phase }
{
    match row.phase {
        Phase::Resting => true,
        Phase::Ready(c, x) => {
            let h = hold_of(row.holds, hold_number(x));
            access_right(arena, row, x) && (c == h || c == read_header(arena, h).target)
        }
        Phase::Waiting(c, x) => access_right(arena, row, x)
            && c == hold_of(row.holds, hold_number(x)),
    }
}

// "In the third barrier a passed row holds no old block."
#[tactic(auto, unfolding(model::specs::Rules::passed_right))]
fn passed_right(mv: &Move, row: Row) -> bool
    ensures { result ≡ passed_right mv.now row }
{
    !is_late(mv.stage) || !row.passed || !is_among(row.holds, mv.from as u32)
}

// "While a header is flagged": after R4 it can only be the moved record's.
#[tactic(auto, unfolding(model::specs::Rules::flag_up))]
fn flag_up(mv: &Move, arena: &[u32]) -> bool
    ensures { result ≡ flag_up mv.now arena.now }
{
    let from = mv.from as u32;
    is_early(mv.stage) && read_header(arena, from) == Header::flagged(from)
}

// By how much a row's swaps must stay below begun.
fn owed_by(flag: bool, from: u32, phase: Phase) -> u64
    ensures { (result ≡ owed flag from phase) × (result ≤ 2) }
{
    match phase {
        Phase::Resting | Phase::Ready(_, _) => flag as u64,
        Phase::Waiting(c, _) => if flag && c != from { 2 } else { 1 },
    }
}

// R8 "Swaps ≤ begun. While a header is flagged, swaps < begun, and a row waiting on another record has swaps + 1 < begun. While none is
// flagged, a waiting row has swaps < begun."
#[tactic(auto, using(crate::proofs::Owed::owed_decides))]
fn swaps_right(flag: bool, from: u32, begun: u32, row: Row) -> bool
    ensures { result ≡ swaps_right flag from begun row }
{
    row.swaps as u64 + owed_by(flag, from, row.phase) <= begun as u64
}

// R8, on every row of the table.
#[tactic(auto, using(table::proofs::Rows::no_rows), unfolding(model::specs::Rules::R8))]
pub fn all_swaps_right(control: &Control, arena: &[u32], table: &[u32]) -> bool
    ensures { result ≡ R8 control.now.mv control.now.begun arena.now (rows_of table.now) }
{
    let flag = flag_up(&control.mv, arena);
    let from = control.mv.from as u32;
    if table.len() != TABLE_WORDS {
        return true;
    }
    (0..ROWS).all(|i| swaps_right(flag, from, control.begun, table::checked_row_at(table, i)))
}
