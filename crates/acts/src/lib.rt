// One step on what is lent: the control record, arena and table as words, a row decoded for its step.
// Knows nothing of sizes or soundness; on words that mean no rows it is still defined.
#![tactic(auto)]

ghost use Rattle.std.specs.Prelude.{◌≡◌, get_or};
ghost use Rattle.model.specs.State.{stage_of};
ghost use Rattle.model.specs.Steps.{keeper_codes, client_codes, UNKNOWN};
ghost use Rattle.mover.specs.Kept.{advance_move};
ghost use Rattle.table.specs.Words.{put_row, put_phase, put_swaps};
ghost use Rattle.acts.specs.Acts.{client_left, lent, clear_if, keeper_turn, by_move, LeftDoes, KeptDoes, TurnDoes};

use clients::settle;
use model::{Access, Answer, Control, Move, Reason, Stepped};
use mover::Kept;

// Three functions, where one that takes a closure would say in no contract which words of a row a step may change.
// ATTACH, DETACH, OPEN, DROP and REST: the whole row is stored.
fn keep_row(table: &mut [u32], i: u32, o: Stepped) -> Answer
    ensures stored { table.new ≡ put_row table.old i o.row }
    ensures told { result ≡ o.answer }
{
    table::put_row_at(table, i, o.row);
    o.answer
}

// READ and WRITE change the phase alone.
fn keep_phase(table: &mut [u32], i: u32, o: Stepped) -> Answer
    ensures stored { table.new ≡ put_phase table.old i o.row.phase }
    ensures told { result ≡ o.answer }
{
    table::put_phase_at(table, i, o.row.phase);
    o.answer
}

// GO changes the swaps and the phase.
fn keep_swap(table: &mut [u32], i: u32, o: Stepped) -> Answer
    ensures stored { table.new ≡ put_phase (put_swaps table.old i o.row.swaps) i o.row.phase }
    ensures told { result ≡ o.answer }
{
    table::put_swaps_at(table, i, o.row.swaps);
    table::put_phase_at(table, i, o.row.phase);
    o.answer
}

// A client's step on row i; "Unused numbers are ignored."
#[tactic(auto, unfolding(crate::specs::Acts::client_left))]
pub fn client(
    arena: &mut [u32],
    table: &mut [u32],
    dir: &[u16; 256],
    i: u32,
    code: u32,
    a: u32,
    b: u32,
    v: u32,
) -> Answer
    ensures { LeftDoes arena.new table.new result
        (client_left (get_or client_codes code UNKNOWN) arena.old table.old dir.now i a b v) }
{
    let row = table::row_at(table, i);
    match code {
        10 => keep_row(table, i, settle(row, clients::attach(row))),
        11 => keep_row(table, i, settle(row, clients::detach(row))),
        12 => {
            let entry = directory::entry_of(dir, a) as u32;
            let step = clients::open_hold(row, entry, a, b);
            keep_row(table, i, settle(row, step))
        }
        13 => keep_row(table, i, settle(row, clients::drop_hold(row, a))),
        14 => {
            let read = Access::Read { hold: a, word: b };
            let step = clients::start_access(arena, row, read);
            keep_phase(table, i, settle(row, step))
        }
        15 => {
            let write = Access::Write {
                hold: a,
                word: b,
                value: v,
            };
            let step = clients::start_access(arena, row, write);
            keep_phase(table, i, settle(row, step))
        }
        16 => {
            let o = settle(row, clients::go(arena, row));
            record::apply(arena, o.change);
            keep_swap(table, i, o)
        }
        17 => keep_row(table, i, settle(row, clients::rest(arena, row))),
        0..=9 | 18..=4294967295 => Answer::from(Reason::Unknown),
    }
}

fn clear_if(table: &mut [u32], clear: bool)
    ensures { table.new ≡ clear_if clear table.old }
{
    if clear {
        table::clear_marks(table);
    }
}

// What a keeper's step leaves of what it takes, the move alone or the whole control record, stored.
fn put_kept<T: Copy>(whole: &mut T, arena: &mut [u32], table: &mut [u32], kept: Kept<T>) -> Answer
    ensures { KeptDoes arena.old table.old whole.new arena.new table.new result kept }
{
    *whole = kept.next;
    record::apply(arena, kept.change);
    clear_if(table, kept.clear);
    kept.answer
}

// Whether a keeper's step needs the move alone: ADVANCE, but for a second or third barrier that all have passed.
#[tactic(auto, unfolding(crate::specs::Acts::by_move))]
pub fn by_move(code: u32, mv: Move, passed: bool) -> bool
    ensures { result ≡ by_move code mv passed }
{
    code == 4 && !mover::closes(mv, passed)
}

// 4 ADVANCE on the move alone.
pub fn advance(mv: &mut Move, arena: &mut [u32], table: &mut [u32], passed: bool) -> Answer
    ensures { KeptDoes arena.old table.old mv.new arena.new table.new result
        (advance_move arena.old mv.old passed (stage_of mv.old.stage)) }
{
    let kept = mover::advance(arena, *mv, passed);
    put_kept(mv, arena, table, kept)
}

// The keeper's steps on the whole control record; a refused one changes nothing.
pub fn keep(
    control: &mut Control,
    arena: &mut [u32],
    table: &mut [u32],
    code: u32,
    a: u32,
    b: u32,
) -> Answer
    ensures { TurnDoes control.new arena.new table.new result
        (keeper_turn (get_or keeper_codes code UNKNOWN) (lent control.old arena.old table.old) a b) }
{
    let result = match code {
        1 => keeper::admit(*control, arena, a, b),
        2 => {
            let cell = directory::entry_of(&control.dir, a) as u32;
            keeper::retire(*control, arena, table::holds_cell(table, cell), a)
        }
        3 => keeper::begin(*control, arena, a),
        4 => Ok(mover::close(*control, arena)),
        0 | 5..=4294967295 => Err(Reason::Unknown),
    };
    match result {
        Ok(kept) => put_kept(control, arena, table, kept),
        Err(reason) => Answer::from(reason),
    }
}
