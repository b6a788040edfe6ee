// ADVANCE: the stages of a move. What needs the move alone goes by the move; the rest takes the control record by value and gives it back.
// Only the mover frees the replica. Knows nothing of rows: whether all have passed is told; the caller clears the marks.
#![tactic(auto)]

ghost use Rattle.std.specs.Prelude.{◌≡◌};
ghost use Rattle.model.specs.Arena.{put_run, cells_at};
ghost use Rattle.model.specs.State.{stage_of};
ghost use Rattle.model.specs.KeeperSteps.{replica_word};
ghost use Rattle.mover.specs.Kept.{stays, open_first, copy_move, advance_move, commit_kept, end_move, call_off_kept};
ghost use Rattle.mover.specs.Kept.{settle_kept, give_back_kept, closing, close_kept};

use cells::{Cell, Run};
use directory::set_entry;
use model::{Answer, Control, Move, Put, Reason, Stage};
use record::Header;

// What a step leaves of what it takes, the move alone or the whole control record; the word of the arena that changes, if any; whether
// marks are cleared; the answer.
#[derive(Clone, Copy)]
pub struct Kept<T> {
    pub next: T,
    pub change: Option<Put>,
    pub clear: bool,
    pub answer: Answer,
}

// Of the arena nothing changes, and no mark is cleared.
pub fn stay<T>(next: T, answer: Answer) -> Kept<T>
    ensures { result ≡ stays next answer }
{
    Kept {
        next,
        change: None,
        clear: false,
        answer,
    }
}

// "if any row has not passed, answer 22, nothing changes; else to copying, answer 23"
#[tactic(auto, unfolding(crate::specs::Kept::open_first))]
fn open_first(mv: Move, passed: bool) -> Kept<Move>
    ensures { result ≡ open_first mv passed }
{
    if !passed {
        return stay(mv, Answer::BarrierOpen);
    }
    let next = Move {
        stage: u32::from(Stage::Copying),
        ..mv
    };
    stay(next, Answer::CopyingStarts)
}

// "word 0 is 2 × target, every other word is copied"
#[tactic(auto, using(record::proofs::Words::packed_plain), unfolding(model::specs::KeeperSteps::replica_word))]
fn replica_word(arena: &[u32], mv: Move) -> u32
    ensures { result ≡ replica_word arena.now mv }
{
    if mv.copied == 0 {
        u32::from(Header::plain(mv.target as u32))
    } else {
        record::load(arena, record::place(mv.from as u32, mv.copied))
    }
}

// "writes one word of the replica, in order from 0 .. After the last word marks are cleared and the stage is second barrier."
#[tactic(auto, unfolding(model::specs::State::rise, crate::specs::Kept::copy_move))]
fn copy_word(arena: &[u32], mv: Move) -> Kept<Move>
    ensures { result ≡ copy_move arena.now mv }
{
    let copied = mv.copied.wrapping_add(1);
    let last = copied == record::lengths_at(arena, mv.from as u32).words;
    let stage = if last {
        Stage::SecondBarrier
    } else {
        Stage::Copying
    };
    Kept {
        next: Move {
            stage: u32::from(stage),
            copied,
            ..mv
        },
        change: Some(Put {
            at: record::place(mv.target as u32, mv.copied),
            word: replica_word(arena, mv),
        }),
        clear: last,
        answer: Answer::Copied(copied),
    }
}

// 4 ADVANCE, where the move alone is enough: the first barrier, copying, and any barrier that is open.
pub fn advance(arena: &[u32], mv: Move, passed: bool) -> Kept<Move>
    ensures { result ≡ advance_move arena.now mv passed (stage_of mv.stage) }
{
    match Stage::from(mv.stage) {
        Stage::NoMove => stay(mv, Answer::from(Reason::Idle)),
        Stage::FirstBarrier => open_first(mv, passed),
        Stage::Copying => copy_word(arena, mv),
        Stage::SecondBarrier | Stage::ThirdBarrier => stay(mv, Answer::BarrierOpen),
    }
}

// "Equal: header becomes 2 × target, directory entry the target, committed rises, marks are cleared, stage third barrier"
#[tactic(auto, using(record::proofs::Words::packed_plain), unfolding(model::specs::State::rise))]
fn commit(mut control: Control) -> Kept<Control>
    ensures { result ≡ commit_kept control }
{
    let mv = control.mv;
    set_entry(&mut control.dir, mv.meter, mv.target);
    control.mv.stage = u32::from(Stage::ThirdBarrier);
    control.committed = control.committed.wrapping_add(1);
    Kept {
        next: control,
        change: Some(Put {
            at: record::place(mv.from as u32, 0),
            word: u32::from(Header::plain(mv.target as u32)),
        }),
        clear: true,
        answer: Answer::Committed(mv.target as u32),
    }
}

// "cells free": those of the block at a cell that is as long as the record at `from`.
#[tactic(auto, using(model::proofs::ByKind::cells_short))]
pub fn free_block(map: &mut [u64; 16], arena: &[u32], from: u16, cell: u16)
    ensures { map.new ≡ put_run map.old cell (cells_at arena.now from) 0 }
{
    let block = Run {
        start: cell as u32,
        cells: record::lengths_at(arena, from as u32).cells,
    };
    block.put(map, Cell::Free);
}

// The block at a cell is freed, as long as the moved record; "no move in hand".
fn end_move(mut control: Control, arena: &[u32], cell: u16) -> Control
    ensures { result ≡ end_move control arena.now cell }
{
    free_block(&mut control.map, arena, control.mv.from, cell);
    control.mv = Move::default();
    control
}

// "Not equal: the replica's cells are freed, aborted rises, no move in hand"
#[tactic(auto, unfolding(model::specs::State::rise))]
fn call_off(control: Control, arena: &[u32]) -> Kept<Control>
    ensures { result ≡ call_off_kept control arena.now }
{
    let mut next = end_move(control, arena, control.mv.target);
    next.aborted = next.aborted.wrapping_add(1);
    stay(next, Answer::CalledOff)
}

// The second barrier, all passed: "compare the header with 2 × from + 1".
#[tactic(auto, unfolding(crate::specs::Kept::settle_kept))]
fn settle(control: Control, arena: &[u32]) -> Kept<Control>
    ensures { result ≡ settle_kept control arena.now }
{
    let from = control.mv.from as u32;
    if record::read_header(arena, from) == Header::flagged(from) {
        commit(control)
    } else {
        call_off(control, arena)
    }
}

// The third barrier, all passed: "the old block's cells are freed, no move in hand".
fn give_back(control: Control, arena: &[u32]) -> Kept<Control>
    ensures { result ≡ give_back_kept control arena.now }
{
    stay(end_move(control, arena, control.mv.from), Answer::GivenBack)
}

// Whether 4 ADVANCE needs the whole control record: at the second and third barrier, once all have passed.
pub fn closes(mv: Move, passed: bool) -> bool
    ensures { result ≡ closing passed (stage_of mv.stage) }
{
    match Stage::from(mv.stage) {
        Stage::SecondBarrier | Stage::ThirdBarrier => passed,
        _ => false,
    }
}

// 4 ADVANCE on the whole control record; at the other stages it changes nothing.
pub fn close(control: Control, arena: &[u32]) -> Kept<Control>
    ensures { result ≡ close_kept control arena.now (stage_of control.mv.stage) }
{
    match Stage::from(control.mv.stage) {
        Stage::SecondBarrier => settle(control, arena),
        Stage::ThirdBarrier => give_back(control, arena),
        _ => stay(control, Answer::BarrierOpen),
    }
}
