// R3 decided: the records' blocks are laid into an empty map, which is then compared with the map by words.
// Total over any contents; knows nothing of clients, and nothing of the other rules.
#![tactic(auto)]

ghost use Rattle.std.specs.Prelude.{◌≡◌};
ghost use Rattle.model.specs.Arena.{cells_at, free_cells, put_run};
ghost use Rattle.model.specs.State.{stage_of};
ghost use Rattle.model.specs.Rules.{early, late, R3};
ghost use Rattle.blocks.specs.Other.{other_start};

use cells::{Cell, Run};
use model::{Move, Stage};

const CELLS: u16 = 1024;

// "its first three stages"; "the third barrier"
pub fn is_early(stage: u32) -> bool
    ensures { result ≡ early (stage_of stage) }
{
    matches!(
        Stage::from(stage),
        Stage::FirstBarrier | Stage::Copying | Stage::SecondBarrier
    )
}

pub fn is_late(stage: u32) -> bool
    ensures { result ≡ late (stage_of stage) }
{
    Stage::from(stage) == Stage::ThirdBarrier
}

// The block at cell c that is as long as the record at `from` is laid into the map; whether all its cells were free.
// An absent entry is no cell, and lays none.
fn lay_block(seen: &mut [u64; 16], arena: &[u32], from: u16, c: u16) -> bool
    ensures free { result ≡ free_cells seen.old c (cells_at arena.now from) }
    ensures laid { seen.new ≡ put_run seen.old c (cells_at arena.now from) 1 }
{
    if CELLS <= c {
        return true;
    }
    let run = Run {
        start: c as u32,
        cells: record::lengths_at(arena, from as u32).cells,
    };
    let free = run.is_free(seen);
    run.put(seen, Cell::Used);
    free
}

// Where "the move's other block" starts: it is the target in the first three stages, the old one in the third barrier.
fn other_start(mv: Move) -> Option<u16>
    ensures { result ≡ other_start (stage_of mv.stage) mv }
{
    match Stage::from(mv.stage) {
        Stage::NoMove => None,
        Stage::FirstBarrier | Stage::Copying | Stage::SecondBarrier => Some(mv.target),
        Stage::ThirdBarrier => Some(mv.from),
    }
}

// R3 "Used cells are exactly those of present records and of the move's other block; none lies in two."
pub fn cells_right(dir: &[u16; 256], map: &[u64; 16], mv: Move, arena: &[u32]) -> bool
    ensures { result ≡ R3 dir.now map.now mv arena.now }
{
    let mut seen = [0; 16];
    for &c in dir {
        if !lay_block(&mut seen, arena, c, c) {
            return false;
        }
    }
    match other_start(mv) {
        Some(c) => lay_block(&mut seen, arena, mv.from, c) && seen == *map,
        None => seen == *map,
    }
}
