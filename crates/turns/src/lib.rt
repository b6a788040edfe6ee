// A run of steps on what is lent, each answered in its slot.
// Knows nothing of sizes or soundness; on words that mean no rows it is still defined.
#![tactic(auto)]

ghost use Rattle.std.specs.Prelude.{◌≡◌, ◌+◌, ◌*◌, ◌<◌, length};
ghost use Rattle.model.specs.declared.Answer.TheVariants.{Done};
ghost use Rattle.answers.specs.Answers.{told_as};
ghost use Rattle.acts.specs.Acts.{lent, turn_on, TurnDoes};
ghost use Rattle.turns.specs.Runs.{step_of, going, put_told, turns_from, RunDoes};

use answers::Told;
use model::{Answer, Control, Reason};

// "A run of up to 4,096 steps"
const MOST: usize = 4096;

// "A step is five numbers: who, code, a, b, v."
#[derive(Clone, Copy)]
pub struct Numbers {
    pub who: u32,
    pub code: u32,
    pub a: u32,
    pub b: u32,
    pub v: u32,
}

// "five words each"
impl From<[u32; 5]> for Numbers {
    ghost use Rattle.std.specs.Prelude.{◌≡◌};
    ghost use Rattle.turns.specs.Runs.{numbers_at};

    ghost from_gives = { λ words step. step ≡ numbers_at words 0 };

    fn from(words: [u32; 5]) -> Numbers {
        let [who, code, a, b, v] = words;
        Numbers { who, code, a, b, v }
    }
}

// The keeper's step. ADVANCE on the move alone passes no control record.
fn keep(control: &mut Control, arena: &mut [u32], table: &mut [u32], step: Numbers) -> Answer
    requires { step.who ≡ 0 }
    ensures { TurnDoes control.new arena.new table.new result
        (turn_on (lent control.old arena.old table.old) (step_of step)) }
{
    let passed = table::all_passed(table);
    if acts::by_move(step.code, control.mv, passed) {
        acts::advance(&mut control.mv, arena, table, passed)
    } else {
        acts::keep(control, arena, table, step.code, step.a, step.b)
    }
}

// One step: "Who 0 is the keeper, 1 to 8 the clients."
fn turn(control: &mut Control, arena: &mut [u32], table: &mut [u32], step: Numbers) -> Answer
    ensures { TurnDoes control.new arena.new table.new result
        (turn_on (lent control.old arena.old table.old) (step_of step)) }
{
    match step.who {
        0 => keep(control, arena, table, step),
        1..=8 => acts::client(
            arena,
            table,
            &control.dir,
            step.who - 1,
            step.code,
            step.a,
            step.b,
            step.v,
        ),
        9..=4294967295 => Answer::from(Reason::Nobody),
    }
}

// "a two-word answer slot for each"
#[tactic(auto, unfolding(crate::specs::Runs::put_told))]
fn put_answer(slots: &mut [u32], i: usize, answer: Answer)
    requires { 2 * i + 1 < length slots.old }
    ensures { slots.new ≡ put_told slots.old i (told_as answer) }
{
    let told = Told::from(answer);
    slots[2 * i] = told.number;
    slots[2 * i + 1] = told.value;
}

// The steps one by one, each answered in its slot, and the last answer; "a refused step inside it only fills its own slot".
pub fn turns(
    control: &mut Control,
    arena: &mut [u32],
    table: &mut [u32],
    steps: &[u32],
    slots: &mut [u32],
) -> Answer
    ensures { RunDoes control.new arena.new table.new slots.new result
        (turns_from steps.now 0 4096
        (going (lent control.old arena.old table.old) slots.old (Done 0))) }
{
    let mut answer = Answer::Done(0);
    let (steps, _) = steps.as_chunks();
    let n = steps.len().min(slots.len() / 2).min(MOST);
    for (i, step) in steps[..n].iter().enumerate() {
        answer = turn(control, arena, table, Numbers::from(*step));
        put_answer(slots, i, answer);
    }
    answer
}
