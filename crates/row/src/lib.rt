// One client's row by value: its holds, its phase, its access.
// Knows nothing of arena, directory or table; each function is total.
#![tactic(auto)]

ghost use Rattle.std.specs.Prelude.{◌≡◌, eqb, get_or, set};
ghost use Rattle.model.specs.Choice.{pick, any};
ghost use Rattle.model.specs.Arena.{none};
ghost use Rattle.model.specs.Rows.{access_of, hold_of, word_of, busy, with_phase};
ghost use Rattle.row.specs.Holds.{held};

use model::{Access, Phase, Row};

// "each empty (65535) or a cell"
pub const NONE: u32 = 65535;

// One of two numbers by a test.
pub fn choose(test: bool, x: u32, y: u32) -> u32
    ensures { result ≡ pick test x y }
{
    if test { x } else { y }
}

// A hold above 3 is empty.
pub fn hold_of(holds: [u32; 4], hold: u32) -> u32
    ensures { result ≡ get_or holds hold none }
{
    holds.get(hold as usize).copied().unwrap_or(NONE)
}

// The cell in a hold; a hold above 3 is empty.
pub fn held(holds: [u32; 4], hold: u32) -> Option<u32>
    ensures { result ≡ held holds hold }
{
    holds
        .get(hold as usize)
        .copied()
        .filter(|cell| *cell != NONE)
}

// A hold becomes a cell; a hold above 3 is none.
pub fn set_hold(holds: [u32; 4], hold: u32, cell: u32) -> [u32; 4]
    ensures { result ≡ set holds hold cell }
{
    let mut next = holds;
    if hold < 4 {
        next[hold as usize] = cell;
    }
    next
}

// Whether one of the holds is the cell.
pub fn is_among(holds: [u32; 4], cell: u32) -> bool
    ensures { result ≡ any (eqb cell) holds }
{
    holds.contains(&cell)
}

// A busy row does not rest.
pub fn is_busy(phase: Phase) -> bool
    ensures { result ≡ busy phase }
{
    !matches!(phase, Phase::Resting)
}

pub fn with_phase(row: Row, phase: Phase) -> Row
    ensures { result ≡ with_phase row phase }
{
    Row { phase, ..row }
}

// "the access (read or write, hold, word, value), value 0 for a read": which of the two is a bit where it is stored.
pub fn access_of(write: bool, hold: u32, word: u32, value: u32) -> Access
    ensures { result ≡ access_of write hold word value }
{
    if write {
        Access::Write { hold, word, value }
    } else {
        Access::Read { hold, word }
    }
}

pub fn hold_number(x: Access) -> u32
    ensures { result ≡ hold_of x }
{
    match x {
        Access::Read { hold, .. } | Access::Write { hold, .. } => hold,
    }
}

pub fn word_number(x: Access) -> u32
    ensures { result ≡ word_of x }
{
    match x {
        Access::Read { word, .. } | Access::Write { word, .. } => word,
    }
}
