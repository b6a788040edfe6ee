// R1, R2, R4, R5 and R7 decided: the directory's records, the move, their headers, the move's numbers, the counts.
// Each on any contents, for itself; changes nothing, and copies neither control record nor arena.
#![tactic(auto)]

ghost use Rattle.std.specs.Prelude.{◌≡◌, ◌+◌, leb};
ghost use Rattle.model.specs.declared.Stage.TheVariants.{NoMove};
ghost use Rattle.model.specs.Choice.{every};
ghost use Rattle.model.specs.Rules.{replica_right, early_right, late_right, header_right, numbers_right, R1, R2, R4, R5, R7};
ghost use Rattle.record_rules.specs.Entries.{record_at, header_at};

use blocks::{is_early, is_late};
use directory::{ABSENT, find};
use model::{Control, Move, Stage};
use record::{Header, lengths_at, lengths_of, read_header, read_label};

// The n cells from c on lie "within 1,024 cells".
fn fits(c: u16, n: u32) -> bool
    ensures { result ≡ leb (c + n) 1024 }
{
    c as u64 + n as u64 <= 1024
}

// R1 "Each present entry c: label matches its meter, kind read from it, record within 1,024 cells."
#[tactic(auto, unfolding(crate::specs::Entries::record_at))]
fn record_right(arena: &[u32], meter: u32, cell: u16) -> bool
    ensures { result ≡ record_at arena.now meter cell }
{
    if cell == ABSENT {
        return true;
    }
    let label = read_label(arena, cell as u32);
    label.meter == meter && fits(cell, lengths_of(label.kind).cells)
}

// R1, every meter.
pub fn records_right(control: &Control, arena: &[u32]) -> bool
    ensures { result ≡ R1 control.now.dir arena.now }
{
    control
        .dir
        .iter()
        .enumerate()
        .all(|(meter, &cell)| record_right(arena, meter as u32, cell))
}

// R2 "Replica words 0 and 1 are right once copied."
#[tactic(auto, unfolding(model::specs::Rules::replica_right))]
fn replica_right(mv: &Move, arena: &[u32]) -> bool
    ensures { result ≡ replica_right mv.now arena.now }
{
    let target = mv.target as u32;
    (mv.copied == 0 || read_header(arena, target) == Header::plain(target))
        && (mv.copied <= 1 || read_label(arena, target) == read_label(arena, mv.from as u32))
}

// "A move in its first three stages names a present meter whose entry is the old cell, and a target block of its length within the
// arena"
#[tactic(auto, unfolding(model::specs::Rules::early_right))]
fn early_right(control: &Control, arena: &[u32]) -> bool
    ensures { result ≡ early_right control.now.dir control.now.mv arena.now }
{
    let mv = &control.mv;
    find(&control.dir, mv.meter) == Some(mv.from)
        && fits(mv.target, lengths_at(arena, mv.from as u32).cells)
        && replica_right(mv, arena)
}

// "in the third barrier the entry is the target, and the old block has the same label and lies within the arena"
#[tactic(auto, unfolding(model::specs::Rules::late_right))]
fn late_right(control: &Control, arena: &[u32]) -> bool
    ensures { result ≡ late_right control.now.dir control.now.mv arena.now }
{
    let mv = &control.mv;
    let label = read_label(arena, mv.from as u32);
    find(&control.dir, mv.meter) == Some(mv.target)
        && label == read_label(arena, mv.target as u32)
        && fits(mv.from, lengths_of(label.kind).cells)
}

// R2; "a stage that is none" breaks it.
#[tactic(auto, unfolding(model::specs::Rules::R2))]
pub fn move_right(control: &Control, arena: &[u32]) -> bool
    ensures { result ≡ R2 control.now.dir control.now.mv arena.now }
{
    if 4 < control.mv.stage {
        return false;
    }
    match Stage::from(control.mv.stage) {
        Stage::NoMove => true,
        Stage::FirstBarrier | Stage::Copying | Stage::SecondBarrier => early_right(control, arena),
        Stage::ThirdBarrier => late_right(control, arena),
    }
}

// R4 "Headers of present records are 2c; in the first three stages the moved one may be 2c + 1."
#[tactic(auto, unfolding(crate::specs::Entries::header_at))]
fn header_right(mv: &Move, arena: &[u32], meter: u32, cell: u16) -> bool
    ensures { result ≡ header_at mv.now arena.now meter cell }
{
    if cell == ABSENT {
        return true;
    }
    let c = cell as u32;
    let header = read_header(arena, c);
    header == Header::plain(c)
        || (is_early(mv.stage) && meter == mv.meter && header == Header::flagged(c))
}

// R4, every meter.
fn entries_right(control: &Control, arena: &[u32]) -> bool
    ensures { result ≡ every 256 (header_right control.now.dir control.now.mv arena.now) }
{
    let mv = &control.mv;
    control.dir.iter().enumerate().all(|(meter, &cell)| header_right(mv, arena, meter as u32, cell))
}

// R4; "In the third barrier the old header is 2 × new."
#[tactic(auto, unfolding(model::specs::Rules::R4))]
pub fn headers_right(control: &Control, arena: &[u32]) -> bool
    ensures { result ≡ R4 control.now.dir control.now.mv arena.now }
{
    let mv = &control.mv;
    entries_right(control, arena)
        && (!is_late(mv.stage)
            || read_header(arena, mv.from as u32) == Header::plain(mv.target as u32))
}

// "all 0 when there is none"
fn no_numbers(mv: Move) -> bool
    ensures { result ≡ numbers_right NoMove mv 0 }
{
    Move { stage: 0, ..mv } == Move::default()
}

// R5 "Words copied is below the record's words while copying; at the other stages, and with no move in hand, the move's numbers are as
// said above."
#[tactic(auto, unfolding(model::specs::Rules::R5))]
pub fn numbers_right(control: &Control, arena: &[u32]) -> bool
    ensures { result ≡ R5 control.now.mv arena.now }
{
    let mv = control.mv;
    let words = lengths_at(arena, mv.from as u32).words;
    match Stage::from(mv.stage) {
        Stage::NoMove => no_numbers(mv),
        Stage::FirstBarrier => mv.copied == 0,
        Stage::Copying => mv.copied < words,
        Stage::SecondBarrier | Stage::ThirdBarrier => mv.copied == words,
    }
}

// R7 "begun = committed + aborted, plus 1 during the first three stages."
#[tactic(auto, unfolding(model::specs::Rules::R7))]
pub fn counts_right(control: &Control) -> bool
    ensures { result ≡ R7 control.now.mv control.now.begun control.now.committed control.now.aborted }
{
    let early = is_early(control.mv.stage) as u64;
    control.begun as u64 == control.committed as u64 + control.aborted as u64 + early
}
