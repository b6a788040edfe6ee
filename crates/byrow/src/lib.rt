// The calls on eight rows by value: their words are made, `archive` works on them, the rows are read back.
// Where a table has not eight rows there are none by value: no row is looked at, and none come back.
#![tactic(auto)]

ghost use Rattle.std.specs.Prelude.{◌≡◌};
ghost use Rattle.model.specs.Choice.{All};
ghost use Rattle.model.specs.Rows.{FourHolds};
ghost use Rattle.model.specs.State.{state};
ghost use Rattle.model.specs.Steps.{step, fresh_call, step_call, run_call, fill_call, audit_call};
ghost use Rattle.table.specs.Words.{table_words, rows_read, put_row};
ghost use Rattle.byrow.specs.Does.{DoesRows, RunsRows, LooksRows};
ghost use Rattle.byrow.specs.OnWords.{OnWords, turned_down};

use archive::Reply;
use model::{Control, Reason, Row};

// What a call leaves: the reply, and the rows.
#[derive(Clone, Copy)]
pub struct Done {
    pub reply: Reply,
    pub rows: Option<[Row; 8]>,
}

// Row i of the words becomes `row`: one by value has four holds, as its type says.
fn put(words: &mut [u32; 96], i: u32, row: Row)
    ensures words { words.new ≡ put_row words.old i row }
    ensures holds { FourHolds row }
{
    table::put_row_at(words, i, row);
}

// The words of the rows, each of which has four holds.
fn words_of(rows: &[Row; 8]) -> [u32; 96]
    ensures words { result ≡ table_words rows.now }
    ensures holds { All FourHolds rows.now }
{
    let mut words = [0; 96];
    for (i, row) in rows.iter().enumerate() {
        put(&mut words, i as u32, *row);
    }
    words
}

// The rows as the words have them.
#[tactic(auto, unfolding(table::specs::Words::list_from))]
fn rows_of(words: &[u32; 96]) -> [Row; 8]
    ensures { result ≡ rows_read words.now }
{
    std::array::from_fn(|i| table::row_at(words, i as u32))
}

// 1 "table not eight rows"
fn refused(control: Control) -> Reply
    ensures { result ≡ turned_down control }
{
    Reply {
        control,
        answer: Reason::WrongSizes.into(),
    }
}

// The call on the words of the rows, which are then read back. `call` is lent: so it is known what it leaves in the arena and the answers.
fn on_words<F: FnMut(&mut [u32; 96]) -> Reply>(
    control: Control,
    rows: Option<[Row; 8]>,
    call: &mut F,
) -> Done
    requires { F.IsAlwaysCallable call.old }
    ensures { OnWords F.FnMut control rows call.old result call.new }
{
    let Some(rows) = rows else {
        return Done {
            reply: refused(control),
            rows: None,
        };
    };
    let mut words = words_of(&rows);
    let reply = call(&mut words);
    let rows = Some(rows_of(&words));
    Done { reply, rows }
}

// Fresh, on the rows of a table.
pub fn fresh_rows(control: Control, arena: &mut [u32], rows: Option<[Row; 8]>) -> Done
    ensures { DoesRows rows result arena.new (λ t. fresh_call (state control arena.old t)) }
{
    on_words(
        control,
        rows,
        &mut |words| archive::fresh(control, arena, words),
    )
}

// One step, on the rows of a table. Its five numbers stand apart, as in the library's calls on both sides of it.
pub fn step_rows(
    control: Control,
    arena: &mut [u32],
    rows: Option<[Row; 8]>,
    who: u32,
    code: u32,
    a: u32,
    b: u32,
    v: u32,
) -> Done
    ensures { DoesRows rows result arena.new
        (λ t. step_call (state control arena.old t) (step who code a b v)) }
{
    on_words(
        control,
        rows,
        &mut |words| archive::step(control, arena, words, who, code, a, b, v),
    )
}

// A run, on the rows of a table.
pub fn run_rows(
    control: Control,
    arena: &mut [u32],
    rows: Option<[Row; 8]>,
    steps: &[u32],
    answers: &mut [u32],
) -> Done
    ensures { RunsRows rows result arena.new answers.new
        (λ t. run_call (state control arena.old t) steps.now answers.old) }
{
    on_words(
        control,
        rows,
        &mut |words| archive::run(control, arena, words, steps, answers),
    )
}

// Fill, on the rows of a table. It and the audit only look, and leave no rows to be read back: so without `on_words`.
pub fn fill_rows(control: Control, arena: &[u32], rows: Option<[Row; 8]>) -> Reply
    ensures { LooksRows rows result (λ t. fill_call (state control arena.now t)) }
{
    let Some(rows) = rows else {
        return refused(control);
    };
    archive::fill(control, arena, &words_of(&rows))
}

// The audit, on the rows of a table.
pub fn audit_rows(control: Control, arena: &[u32], rows: Option<[Row; 8]>) -> Reply
    ensures { LooksRows rows result (λ t. audit_call (state control arena.now t)) }
{
    let Some(rows) = rows else {
        return refused(control);
    };
    archive::audit(control, arena, &words_of(&rows))
}
