// The library's calls over a lent slice of eight row structs: "The client table is lent as eight rows, one for each client".
// Thin: the rows are taken out by value, `byrow` works on them, and they are put back.
#![tactic(auto)]

ghost use Rattle.std.specs.Prelude.{◌≡◌};
ghost use Rattle.model.specs.State.{state};
ghost use Rattle.model.specs.Steps.{step, fresh_call, step_call, run_call, fill_call, audit_call};
ghost use Rattle.byrow.specs.Does.{Does, Runs, Looks, table_left};

use archive::Reply;
use byrow::Done;
use model::{Control, Row};

// The rows of a call that is done go back into the table; its reply is left.
fn put_back(table: &mut [Row], done: Done) -> Reply
    ensures reply { result ≡ done.reply }
    ensures table { table.new ≡ table_left table.old done.rows }
{
    if let Some(rows) = done.rows {
        rows::put_rows(table, rows);
    }
    done.reply
}

// "Fresh zeroes the arena, empties the directory, map and counts, and leaves eight unattached rows".
pub fn fresh(control: Control, arena: &mut [u32], table: &mut [Row]) -> Reply
    ensures { Does result arena.new table.new
        (fresh_call (state control arena.old table.old)) }
{
    let done = byrow::fresh_rows(control, arena, rows::find_rows(table));
    put_back(table, done)
}

// "A step is five numbers: who, code, a, b, v."
pub fn step(
    control: Control,
    arena: &mut [u32],
    table: &mut [Row],
    who: u32,
    code: u32,
    a: u32,
    b: u32,
    v: u32,
) -> Reply
    ensures { Does result arena.new table.new
        (step_call (state control arena.old table.old) (step who code a b v)) }
{
    let done = byrow::step_rows(control, arena, rows::find_rows(table), who, code, a, b, v);
    put_back(table, done)
}

// "A run of up to 4,096 steps (five words each, with a two-word answer slot for each ..) checks soundness once and equals the steps
// one by one."
pub fn run(
    control: Control,
    arena: &mut [u32],
    table: &mut [Row],
    steps: &[u32],
    answers: &mut [u32],
) -> Reply
    ensures { Runs result arena.new table.new answers.new
        (run_call (state control arena.old table.old) steps.now answers.old) }
{
    let done = byrow::run_rows(control, arena, rows::find_rows(table), steps, answers);
    put_back(table, done)
}

// "Fill is the number of used cells".
pub fn fill(control: Control, arena: &[u32], table: &[Row]) -> Reply
    ensures { Looks result (fill_call (state control arena.now table.now)) }
{
    byrow::fill_rows(control, arena, rows::find_rows(table))
}

// "Audit's value, beside answer 30, is 0 or the number of the first broken rule."
pub fn audit(control: Control, arena: &[u32], table: &[Row]) -> Reply
    ensures { Looks result (audit_call (state control arena.now table.now)) }
{
    byrow::audit_rows(control, arena, rows::find_rows(table))
}
