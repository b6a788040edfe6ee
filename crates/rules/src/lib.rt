// The audit: R1 to R8 asked in order, on any control record, arena and table; gives the first that is broken.
// A rule is asked only after those before it. Changes nothing.
#![tactic(auto)]

ghost use Rattle.std.specs.Prelude.{◌≡◌};
ghost use Rattle.model.specs.State.{state};
ghost use Rattle.model.specs.Rules.{first_broken};
ghost use Rattle.table.specs.Words.{rows_of};
ghost use Rattle.rules.specs.Broken.{asked, found};

use blocks::cells_right;
use model::Control;
use record_rules::{counts_right, headers_right, move_right, numbers_right};
use row_rules::{Records, all_swaps_right};

// The rules of "A sound state", by number.
#[derive(Clone, Copy, PartialEq, Eq)]
pub enum Rule {
    R1 = 1,
    R2 = 2,
    R3 = 3,
    R4 = 4,
    R5 = 5,
    R6 = 6,
    R7 = 7,
    R8 = 8,
}

impl From<Rule> for u32 {
    ghost use Rattle.std.specs.Prelude.{◌≡◌};
    ghost use Rattle.rules.specs.Broken.{rule_number};

    ghost from_gives = { λ rule n. n ≡ rule_number rule };

    fn from(rule: Rule) -> u32 {
        rule as u32
    }
}

// Each rule in turn, up to the first that is broken.
#[tactic(auto, unfolding(model::specs::Rules::first_broken))]
fn ask_all(control: &Control, arena: &[u32], table: &[u32]) -> Result<(), Rule>
    ensures { asked result ≡ first_broken (state control.now arena.now (rows_of table.now)) }
{
    let records = Records::found(control, arena).ok_or(Rule::R1)?;
    move_right(control, arena).then_some(()).ok_or(Rule::R2)?;
    cells_right(&control.dir, &control.map, control.mv, arena)
        .then_some(())
        .ok_or(Rule::R3)?;
    headers_right(control, arena).then_some(()).ok_or(Rule::R4)?;
    numbers_right(control, arena).then_some(()).ok_or(Rule::R5)?;
    records.rows_right(table).then_some(()).ok_or(Rule::R6)?;
    counts_right(control).then_some(()).ok_or(Rule::R7)?;
    all_swaps_right(control, arena, table)
        .then_some(())
        .ok_or(Rule::R8)
}

// "Audit's value, beside answer 30, is 0 or the number of the first broken rule."
pub fn first_broken(control: &Control, arena: &[u32], table: &[u32]) -> Option<Rule>
    ensures { found result ≡ first_broken (state control.now arena.now (rows_of table.now)) }
{
    ask_all(control, arena, table).err()
}
