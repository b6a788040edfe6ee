// The library's calls: fresh, step, run, fill and audit on the control record by value, arena and table as lent words (table: 96).
// Sizes first, then soundness, once a call; a refused call changes nothing.
#![tactic(auto)]

ghost use Rattle.std.specs.Prelude.{◌≡◌, not};
ghost use Rattle.model.specs.Choice.{given};
ghost use Rattle.model.specs.declared.Reason.TheVariants.{WrongSizes};
ghost use Rattle.model.specs.Steps.{step, call_refusals, run_refusals, fresh_call, step_call, run_call, fill_call, audit_call, run_sizes};
ghost use Rattle.answers.specs.Answers.{refused_if, refused_by};
ghost use Rattle.archive.specs.Does.{meant, CallDoes, RunDoes, LookDoes, right_sizes};

use answers::refuse_if;
use model::{Answer, Control, Move, Reason};

// "answer a number and a value too"
#[derive(Clone, Copy)]
pub struct Reply {
    pub control: Control,
    pub answer: Answer,
}

// "The arena is 8,192 words of 32 bits"
const WORDS: usize = 8192;

// eight rows of twelve words
const TABLE: usize = 96;

// "each absent (65535)"
const NONE: u16 = 65535;

// "arena is not 8,192 words, or table not eight rows"
#[tactic(auto, unfolding(crate::specs::Does::right_sizes))]
fn sized(arena: &[u32], table: &[u32]) -> Result<(), Reason>
    ensures { result ≡ refused_if (not (right_sizes arena.now table.now)) WrongSizes }
{
    let right = arena.len() == WORDS && table.len() == TABLE;
    refuse_if(!right, Reason::WrongSizes)
}

// 1 or 2, the lower that applies.
#[tactic(auto, using(crate::proofs::Tests::size_test, crate::proofs::Tests::unsound_test))]
fn refusal(control: Control, arena: &[u32], table: &[u32]) -> Result<(), Reason>
    ensures { refused_by result ≡ given (call_refusals (meant control arena.now table.now)) }
{
    sized(arena, table)?;
    let broken = rules::first_broken(&control, arena, table).is_some();
    refuse_if(broken, Reason::Unsound)
}

// "A fresh directory has all 256 meters absent."
pub fn fresh(mut control: Control, arena: &mut [u32], table: &mut [u32]) -> Reply
    ensures { CallDoes table.old result arena.new table.new
        (fresh_call (meant control arena.old table.old)) }
{
    let answer = match sized(arena, table) {
        Ok(()) => {
            arena.fill(0);
            table::fresh_rows(table);
            control = Control {
                dir: [NONE; 256],
                map: [0; 16],
                mv: Move::default(),
                begun: 0,
                committed: 0,
                aborted: 0,
            };
            Answer::Done(0)
        }
        Err(reason) => Answer::from(reason),
    };
    Reply { control, answer }
}

// One step: a run of one.
pub fn step(
    mut control: Control,
    arena: &mut [u32],
    table: &mut [u32],
    who: u32,
    code: u32,
    a: u32,
    b: u32,
    v: u32,
) -> Reply
    ensures { CallDoes table.old result arena.new table.new
        (step_call (meant control arena.old table.old) (step who code a b v)) }
{
    let steps = [who, code, a, b, v];
    let mut slot = [0; 2];
    let answer = match refusal(control, arena, table) {
        Ok(()) => turns::turns(&mut control, arena, table, &steps, &mut slot),
        Err(reason) => Answer::from(reason),
    };
    Reply { control, answer }
}

// "five words each, with a two-word answer slot for each"
#[tactic(auto, unfolding(model::specs::Steps::run_sizes))]
fn run_sizes(steps: &[u32], answers: &[u32]) -> bool
    ensures { result ≡ run_sizes steps.now answers.now }
{
    let n = steps.len();
    n <= 20480 && n % 5 == 0 && answers.len() == 2 * (n / 5)
}

// 1 or 2, the lower that applies to a run.
fn run_refusal(
    control: Control,
    arena: &[u32],
    table: &[u32],
    steps: &[u32],
    answers: &[u32],
) -> Result<(), Reason>
    ensures { refused_by result ≡ given (run_refusals (meant control arena.now table.now) steps.now answers.now) }
{
    refuse_if(!run_sizes(steps, answers), Reason::WrongSizes)?;
    refusal(control, arena, table)
}

// "A run of up to 4,096 steps .. checks soundness once and equals the steps one by one. 1 or 2 refuses the whole run and writes no
// answers; a refused step inside it only fills its own slot."
pub fn run(
    mut control: Control,
    arena: &mut [u32],
    table: &mut [u32],
    steps: &[u32],
    answers: &mut [u32],
) -> Reply
    ensures { RunDoes table.old result arena.new table.new answers.new
        (run_call (meant control arena.old table.old) steps.now answers.old) }
{
    let answer = match run_refusal(control, arena, table, steps, answers) {
        Ok(()) => {
            turns::turns(&mut control, arena, table, steps, answers);
            Answer::Done(0)
        }
        Err(reason) => Answer::from(reason),
    };
    Reply { control, answer }
}

// "Fill is the number of used cells"
pub fn fill(control: Control, arena: &[u32], table: &[u32]) -> Reply
    ensures { LookDoes result (fill_call (meant control arena.now table.now)) }
{
    let answer = match refusal(control, arena, table) {
        Ok(()) => Answer::Done(cells::fill(&control.map)),
        Err(reason) => Answer::from(reason),
    };
    Reply { control, answer }
}

// "Audit's value, beside answer 30, is 0 or the number of the first broken rule."
pub fn audit(control: Control, arena: &[u32], table: &[u32]) -> Reply
    ensures { LookDoes result (audit_call (meant control arena.now table.now)) }
{
    let answer = match sized(arena, table) {
        Ok(()) => Answer::Done(rules::first_broken(&control, arena, table).map_or(0, u32::from)),
        Err(reason) => Answer::from(reason),
    };
    Reply { control, answer }
}
