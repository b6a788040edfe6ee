// ADMIT, RETIRE and BEGIN, and what refuses them: each takes the control record by value and gives it back, or the reason of its refusal.
// Knows nothing of rows: whether some row holds a record is told; the caller clears the marks.
#![tactic(auto)]

ghost use Rattle.std.specs.Prelude.{◌≡◌, IfOk};
ghost use Rattle.model.specs.State.{in_hand, entry};
ghost use Rattle.model.specs.KeeperSteps.{first_move};
ghost use Rattle.model.specs.Choice.{given};
ghost use Rattle.answers.specs.Answers.{refused_by};
ghost use Rattle.model.specs.Refusals.{admit_refusals, begin_refusals};
ghost use Rattle.keeper.specs.Kept.{settled, record_refusals, held_refusals, new_refusals, retire_step, begin_step, admit_step, admit_arena};

use answers::refuse_if;
use cells::{Cell, Run};
use directory::{ABSENT, find, set_entry};
use model::{Answer, Control, Move, Put, Reason, Stage};
use mover::{Kept, stay};
use record::Header;

fn in_hand(stage: Stage) -> bool
    ensures { result ≡ in_hand stage }
{
    stage != Stage::NoMove
}

// The record of a meter, by its start cell: refused by 5, 8 or 10, which RETIRE and BEGIN have in common.
fn record_of(control: &Control, meter: u32) -> Result<u16, Reason>
    ensures refused { refused_by result ≡ given (record_refusals control.now.dir control.now.mv.stage meter) }
    ensures start { IfOk result (λ cell. cell ≡ entry control.now.dir meter) }
{
    refuse_if(255 < meter, Reason::TooLarge)?;
    refuse_if(in_hand(Stage::from(control.mv.stage)), Reason::Busy)?;
    find(&control.dir, meter).ok_or(Reason::Absent)
}

// 2 "RETIRE a = meter. Directory entry absent, cells free."
#[tactic(auto, using(crate::proofs::Steps::steps), unfolding(crate::specs::Kept::retire_step))]
pub fn retire(
    mut control: Control,
    arena: &[u32],
    held: bool,
    meter: u32,
) -> Result<Kept<Control>, Reason>
    ensures kept { settled control result ≡ retire_step control arena.now held meter }
    ensures refused { refused_by result ≡ given (held_refusals control.dir control.mv.stage held meter) }
{
    let cell = record_of(&control, meter)?;
    refuse_if(held, Reason::Held)?;
    mover::free_block(&mut control.map, arena, cell, cell);
    set_entry(&mut control.dir, meter, ABSENT);
    Ok(stay(control, Answer::Done(0)))
}

// "the stage is first barrier"; "words copied is 0 at the first barrier"
fn first_move(meter: u32, from: u16, target: u16) -> Move
    ensures { result ≡ first_move meter from target }
{
    Move {
        stage: u32::from(Stage::FirstBarrier),
        meter,
        from,
        target,
        copied: 0,
    }
}

// 3 "BEGIN a = meter. The target is the lowest free run of the record's length. Its cells become used, the flag is set, begun rises
// by one, passed marks are cleared, the stage is first barrier."
#[tactic(auto, using(crate::proofs::Steps::steps), unfolding(crate::specs::Kept::begin_step))]
pub fn begin(mut control: Control, arena: &[u32], meter: u32) -> Result<Kept<Control>, Reason>
    ensures kept { settled control result ≡ begin_step control arena.now meter }
    ensures refused { refused_by result ≡ given (begin_refusals control arena.now meter) }
{
    let from = record_of(&control, meter)?;
    let cell = from as u32;
    let length = record::lengths_at(arena, cell).cells;
    let target = cells::find_run(&control.map, length)
        .filter(|target| *target < cell)
        .ok_or(Reason::NoneBelow)?;
    control.begun = control.begun.checked_add(1).ok_or(Reason::Spent)?;
    let block = Run {
        start: target,
        cells: length,
    };
    block.put(&mut control.map, Cell::Used);
    control.mv = first_move(meter, from, target as u16);
    Ok(Kept {
        next: control,
        change: Some(Put {
            at: record::place(cell, 0),
            word: u32::from(Header::flagged(cell)),
        }),
        clear: true,
        answer: Answer::Begun(target),
    })
}

// 5 and 7 of ADMIT.
fn admissible(dir: &[u16; 256], meter: u32, kind: u32) -> Result<(), Reason>
    ensures { refused_by result ≡ given (new_refusals dir.now meter kind) }
{
    refuse_if(255 < meter, Reason::TooLarge)?;
    refuse_if(3 < kind, Reason::TooLarge)?;
    refuse_if(find(dir, meter).is_some(), Reason::Already)
}

// 1 "ADMIT a = meter, b = kind. Takes the lowest run of free cells long enough. Header 2c, label set, payload zero."
#[tactic(auto, using(crate::proofs::Steps::steps), unfolding(crate::specs::Kept::admit_step, crate::specs::Kept::admit_arena))]
pub fn admit(
    mut control: Control,
    arena: &mut [u32],
    meter: u32,
    kind: u32,
) -> Result<Kept<Control>, Reason>
    ensures kept { settled control result ≡ admit_step control meter kind }
    ensures refused { refused_by result ≡ given (admit_refusals control meter kind) }
    ensures laid { arena.new ≡ admit_arena control arena.old meter kind }
{
    admissible(&control.dir, meter, kind)?;
    let length = record::lengths_of(kind).cells;
    let cell = cells::find_run(&control.map, length).ok_or(Reason::Full)?;
    record::lay_record(arena, cell as u16, meter as u8, kind as u8);
    let block = Run {
        start: cell,
        cells: length,
    };
    block.put(&mut control.map, Cell::Used);
    set_entry(&mut control.dir, meter, cell as u16);
    Ok(stay(control, Answer::Admitted(cell)))
}
