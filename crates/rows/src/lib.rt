// "The client table is lent as eight rows, one for each client": the rows of a lent slice, taken out by value and put back.
// Knows nothing of steps; a table of another length is not looked into.
#![tactic(auto)]

ghost use Rattle.std.specs.Prelude.{◌≡◌};
ghost use Rattle.rows.specs.Taken.{taken, eight, put_back};

use model::{Phase, Row};

// What stands for each row of a table that has not eight: it is never looked at.
const FRESH: Row = Row {
    attached: false,
    passed: true,
    holds: [65535; 4],
    swaps: 0,
    phase: Phase::Resting,
};

// The rows, taken out, of a table that has eight.
pub fn find_rows(table: &[Row]) -> Option<[Row; 8]>
    ensures { result ≡ taken table.now }
{
    <[Row; 8]>::try_from(table).ok()
}

// The same of any table: fresh rows of one that has not eight.
pub fn take_rows(table: &[Row]) -> [Row; 8]
    ensures { result ≡ eight table.now }
{
    find_rows(table).unwrap_or([FRESH; 8])
}

// The rows, put back.
pub fn put_rows(table: &mut [Row], rows: [Row; 8])
    ensures { table.new ≡ put_back table.old rows }
{
    if table.len() == rows.len() {
        table.copy_from_slice(&rows);
    }
}
