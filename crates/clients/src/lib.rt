// The clients' steps, 10 to 17, on one row by value and the arena as it is; the one word that a step may change goes back in its result.
// Knows nothing of directory, map, move or soundness: every step is total, and equals its turn on every row and arena.
#![tactic(auto, unfolding(crate::specs::Turns::turn))]

ghost use Rattle.std.specs.Prelude.{◌≡◌, map, get_or, IfOk};
ghost use Rattle.model.specs.Rows.{with_phase, with_swaps, hold_of, word_of};
ghost use Rattle.model.specs.Arena.{none, header};
ghost use Rattle.model.specs.State.{rise, reason_number};
ghost use Rattle.model.specs.ClientSteps.{done, at_header, swap, finish, forwarded};
ghost use Rattle.model.specs.Choice.{given};
ghost use Rattle.model.specs.Refusals.{attach_refusals, rest_refusals, open_refusals, drop_refusals, access_refusals, go_refusals};
ghost use Rattle.answers.specs.Answers.{refused_by};
ghost use Rattle.clients.specs.Turns.{refused_turn, settled, attach_turn, detach_turn, open_turn, drop_turn, access_turn, go_turn, rest_turn};

use answers::refuse_if;
use model::{Access, Answer, Phase, Put, Reason, Row, Stepped};
use record::Header;
use row::{NONE, held, hold_number, is_busy, set_hold, with_phase, word_number};

// "All answer 30."
fn done(row: Row) -> Stepped
    ensures { result ≡ done row }
{
    Stepped {
        row,
        change: None,
        answer: Answer::Done(0),
    }
}

// A refused step leaves row and arena as they were.
fn refused(row: Row, reason: Reason) -> Stepped
    ensures { result ≡ refused_turn row (reason_number reason) }
{
    Stepped {
        row,
        change: None,
        answer: Answer::from(reason),
    }
}

// What a step leaves of its row and answers, refused or done.
pub fn settle(row: Row, step: Result<Stepped, Reason>) -> Stepped
    ensures { result ≡ settled row step }
{
    step.unwrap_or_else(|reason| refused(row, reason))
}

// What refuses DETACH and REST; "The lowest number that applies is given", so it is asked first, here and below.
fn rest_refusal(row: Row) -> Result<(), Reason>
    ensures { refused_by result ≡ given (rest_refusals row) }
{
    refuse_if(!row.attached, Reason::Unattached)?;
    refuse_if(is_busy(row.phase), Reason::Busy)
}

// The cell of the named hold, or what refuses DROP, READ and WRITE.
fn held_cell(row: Row, hold: u32) -> Result<u32, Reason>
    ensures refused { refused_by result ≡ given (drop_refusals row hold) }
    ensures found { IfOk result (λ cell. cell ≡ get_or row.holds hold none) }
{
    refuse_if(3 < hold, Reason::TooLarge)?;
    rest_refusal(row)?;
    held(row.holds, hold).ok_or(Reason::Absent)
}

// 10 "ATTACH: attached, passed, holds empty."
pub fn attach(row: Row) -> Result<Stepped, Reason>
    ensures settled { settled row result ≡ attach_turn row }
    ensures refused { refused_by result ≡ given (attach_refusals row) }
{
    refuse_if(row.attached, Reason::Already)?;
    Ok(done(Row {
        attached: true,
        passed: true,
        holds: [NONE; 4],
        ..row
    }))
}

// 11 "DETACH: unattached, passed, holds empty; swaps stay."
pub fn detach(row: Row) -> Result<Stepped, Reason>
    ensures settled { settled row result ≡ detach_turn row }
    ensures refused { refused_by result ≡ given (rest_refusals row) }
{
    rest_refusal(row)?;
    Ok(done(Row {
        attached: false,
        passed: true,
        holds: [NONE; 4],
        ..row
    }))
}

// 12 "OPEN a = meter, b = hold: the hold gets the directory's cell, even over an old hold."
pub fn open_hold(row: Row, entry: u32, meter: u32, hold: u32) -> Result<Stepped, Reason>
    ensures settled { settled row result ≡ open_turn row entry meter hold }
    ensures refused { refused_by result ≡ given (open_refusals row entry meter hold) }
{
    refuse_if(255 < meter, Reason::TooLarge)?;
    refuse_if(3 < hold, Reason::TooLarge)?;
    rest_refusal(row)?;
    refuse_if(entry == NONE, Reason::Absent)?;
    Ok(done(Row {
        holds: set_hold(row.holds, hold, entry),
        ..row
    }))
}

// 13 "DROP a = hold: empties it."
pub fn drop_hold(row: Row, hold: u32) -> Result<Stepped, Reason>
    ensures settled { settled row result ≡ drop_turn row hold }
    ensures refused { refused_by result ≡ given (drop_refusals row hold) }
{
    held_cell(row, hold)?;
    Ok(done(Row {
        holds: set_hold(row.holds, hold, NONE),
        ..row
    }))
}

// "Flag 0: ready at its target, answer 31 with the target. Flag 1: waiting, answer 32 with the record's cell."
#[tactic(auto, unfolding(model::specs::ClientSteps::at_header))]
fn at_header(arena: &[u32], row: Row, x: Access, cell: u32) -> Stepped
    ensures { result ≡ at_header row x cell (header arena.now cell) }
{
    let header = record::read_header(arena, cell);
    if header.flag {
        Stepped {
            row: with_phase(row, Phase::Waiting(cell, x)),
            change: None,
            answer: Answer::WaitsOn(cell),
        }
    } else {
        Stepped {
            row: with_phase(row, Phase::Ready(header.target, x)),
            change: None,
            answer: Answer::ReadyAt(header.target),
        }
    }
}

// 14 READ, 15 WRITE: "Loads the held record's header." Its label is read first, but only where the hold is filled.
pub fn start_access(arena: &[u32], row: Row, x: Access) -> Result<Stepped, Reason>
    ensures settled { settled row result ≡ access_turn arena.now row x }
    ensures refused { refused_by result ≡ given (access_refusals arena.now row (hold_of x) (word_of x)) }
{
    let cell = held_cell(row, hold_number(x))?;
    let lengths = record::lengths_at(arena, cell);
    refuse_if(lengths.payload <= word_number(x), Reason::PastPayload)?;
    Ok(at_header(arena, row, x, cell))
}

// "Swaps rises by one in both."
#[tactic(auto, unfolding(model::specs::State::rise))]
fn with_swap(row: Row, phase: Phase) -> Row
    ensures { result ≡ with_phase (with_swaps row (rise row.swaps)) phase }
{
    Row {
        swaps: row.swaps.wrapping_add(1),
        phase,
        ..row
    }
}

// "Waiting: one swap. If the header is 2 × cell + 1 it becomes 2 × cell, ready at cell, answer 33 value 1. Otherwise ready at the
// header's target, answer 33 value 0."
#[tactic(auto, unfolding(model::specs::ClientSteps::swap))]
fn swap(arena: &[u32], row: Row, cell: u32, x: Access) -> Stepped
    ensures { result ≡ swap arena.now row cell x }
{
    let header = record::read_header(arena, cell);
    if header == Header::flagged(cell) {
        Stepped {
            row: with_swap(row, Phase::Ready(cell, x)),
            change: Some(Put {
                at: record::place(cell, 0),
                word: u32::from(Header::plain(cell)),
            }),
            answer: Answer::SwapWon,
        }
    } else {
        Stepped {
            row: with_swap(row, Phase::Ready(header.target, x)),
            change: None,
            answer: Answer::SwapLost,
        }
    }
}

// "Ready: the access is done, the row rests; answer 34 with the value read, or 35."
fn finish(arena: &[u32], row: Row, cell: u32, x: Access) -> Stepped
    ensures { result ≡ finish arena.now row cell x }
{
    let row = with_phase(row, Phase::Resting);
    match x {
        Access::Read { word, .. } => Stepped {
            row,
            change: None,
            answer: Answer::Got(record::load(arena, record::payload_place(cell, word))),
        },
        Access::Write { word, value, .. } => Stepped {
            row,
            change: Some(Put {
                at: record::payload_place(cell, word),
                word: value,
            }),
            answer: Answer::Written,
        },
    }
}

// 16 GO
pub fn go(arena: &[u32], row: Row) -> Result<Stepped, Reason>
    ensures settled { settled row result ≡ go_turn arena.now row }
    ensures refused { refused_by result ≡ given (go_refusals row) }
{
    refuse_if(!row.attached, Reason::Unattached)?;
    match row.phase {
        Phase::Resting => Err(Reason::Idle),
        Phase::Ready(cell, x) => Ok(finish(arena, row, cell, x)),
        Phase::Waiting(cell, x) => Ok(swap(arena, row, cell, x)),
    }
}

// "Each hold becomes its header's target"; "an empty hold stays empty"
#[tactic(auto, unfolding(model::specs::ClientSteps::forwarded))]
fn forward(arena: &[u32], hold: u32) -> u32
    ensures { result ≡ forwarded arena.now hold }
{
    if hold == NONE {
        NONE
    } else {
        record::read_header(arena, hold).target
    }
}

fn forward_all(arena: &[u32], holds: [u32; 4]) -> [u32; 4]
    ensures { result ≡ map (forwarded arena.now) holds }
{
    holds.map(|hold| forward(arena, hold))
}

// 17 REST: "then passed is set"
pub fn rest(arena: &[u32], row: Row) -> Result<Stepped, Reason>
    ensures settled { settled row result ≡ rest_turn arena.now row }
    ensures refused { refused_by result ≡ given (rest_refusals row) }
{
    rest_refusal(row)?;
    Ok(done(Row {
        passed: true,
        holds: forward_all(arena, row.holds),
        ..row
    }))
}
