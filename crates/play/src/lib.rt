// Replay on slices: the bytes that it reads to the bytes that it prints, over a fresh archive.
// Reads no file and prints nothing itself; a text that is not a script reaches no archive.
#![tactic(auto)]

ghost use Rattle.std.specs.Prelude.{◌≡◌, Ok, ◌*◌, ◌≤◌, [], length};
ghost use Rattle.model.specs.State.{fresh};
ghost use Rattle.script.specs.Lines.{parse};
ghost use Rattle.script.specs.Printing.{line1};
ghost use Rattle.script.specs.Replay.{replay_text};
ghost use Rattle.play.specs.Plays.{numbers_of, step_in, per_line, one_step, section_run, totals_of, Plays, Performs, Prints};

use answers::Told;
use model::{Control, Move};
use script::printing::{Page, Totals};
use script::{Script, Section};
use std::marker::Model;
use turns::Numbers;

// "at most 65,536 bytes"
const MOST: usize = 65536;

// As many words as a text of so many bytes can hold: a number takes two bytes.
const WORDS: usize = 32768;

// "admissions `meter kind`, steps `who code a b v`": what the lines of a section say.
#[derive(Clone, Copy)]
enum Lines {
    Admissions,
    Steps,
}

impl Lines {
    // How many numbers a line has.
    fn numbers(self) -> usize
        ensures { result ≡ per_line self }
    {
        match self {
            Lines::Admissions => 2,
            Lines::Steps => 5,
        }
    }

    // Line i of a section whose numbers lie in words.
    fn step_in(self, words: &[u32], i: u32) -> Numbers
        ensures { result ≡ numbers_of (step_in self words.now i) }
    {
        let k = self.numbers() * i as usize;
        match self {
            Lines::Admissions => Numbers {
                who: 0,
                code: 1,
                a: record::load(words, k),
                b: record::load(words, k + 1),
                v: 0,
            },
            Lines::Steps => Numbers {
                who: record::load(words, k),
                code: record::load(words, k + 1),
                a: record::load(words, k + 2),
                b: record::load(words, k + 3),
                v: record::load(words, k + 4),
            },
        }
    }
}

// An archive that steps have reached from fresh, on lent memory; a contract sees the state that it is in.
#[derive(Drop)]
struct Archive<'a> {
    control: Control,
    arena: &'a mut [u32],
    table: &'a mut [u32],
}

impl<'a> Model for Archive<'a> {
    ghost use Rattle.model.specs.State.{State};

    ghost Value = { State };

    ghost use Rattle.archive.specs.Does.{meant};
    ghost use Rattle.play.specs.Plays.{Reached};

    ghost view = { λ a. meant a.control a.arena.now a.table.now };

    ghost invariant = { λ a. Reached a.control a.arena.now a.table.now };
}

impl<'a> Archive<'a> {
    // Fresh, whatever the memory held.
    fn fresh(arena: &'a mut [u32; 8192], table: &'a mut [u32; 96]) -> Archive<'a>
        ensures { result ≡ fresh }
    {
        let blank = Control {
            dir: [0; 256],
            map: [0; 16],
            mv: Move::default(),
            begun: 0,
            committed: 0,
            aborted: 0,
        };
        let control = archive::fresh(blank, arena, table).control;
        Archive {
            control,
            arena,
            table,
        }
    }

    // A step, and its line: "answer and value".
    fn step(&mut self, s: Numbers, page: &mut Page)
        ensures { Plays self.old self.new page.old page.new [] (one_step self.old s) }
    {
        let reply = archive::step(
            self.control,
            self.arena,
            self.table,
            s.who,
            s.code,
            s.a,
            s.b,
            s.v,
        );
        self.control = reply.control;
        let told = Told::from(reply.answer);
        page.put_pair(told.number, told.value);
    }

    // "Output, each section after its count": the steps one by one.
    fn section(&mut self, input: &[u8], lines: Lines, part: Section, page: &mut Page)
        requires { per_line lines * part.count ≤ 32768 }
        ensures { Plays self.old self.new page.old page.new (line1 part.count)
            (section_run self.old lines input.now part.start part.count) }
    {
        let mut words = [0u32; WORDS];
        let words = &mut words[..lines.numbers() * part.count as usize];
        script::reading::numbers(input, part.start, words);
        page.put_line(part.count as u64);
        for i in 0..part.count {
            self.step(lines.step_in(words, i), page);
        }
    }

    // "five totals: begun, committed, aborted, all swaps, fill"
    fn totals(&self) -> Totals
        ensures { result ≡ totals_of self.now }
    {
        Totals {
            begun: self.control.begun,
            committed: self.control.committed,
            aborted: self.control.aborted,
            swaps: table::all_swaps(self.table),
            fill: cells::fill(&self.control.map),
        }
    }
}

// The admissions and the steps behind them, on a fresh archive.
fn perform(input: &[u8], script: Script, page: &mut Page)
    requires { (length input.now ≤ 65536) × (parse input.now ≡ Ok script) }
    ensures { Performs input.now script page.old page.new }
{
    let mut arena = [0u32; 8192];
    let mut table = [0u32; 96];
    let mut archive = Archive::fresh(&mut arena, &mut table);
    archive.section(input, Lines::Admissions, script.admissions, page);
    archive.section(input, Lines::Steps, script.steps, page);
    page.put_totals(archive.totals());
}

// The whole program, bytes to bytes: how many of the output's bytes are printed. 229,440 have room for any text.
pub fn replay(input: &[u8], output: &mut [u8]) -> usize
    ensures { Prints output.old output.new result (replay_text input.now) }
{
    let mut page = Page::new(output);
    if MOST < input.len() {
        page.put_too_long();
        return page.at;
    }
    match script::reading::parse(input) {
        Ok(script) => perform(input, script, &mut page),
        Err(bad) => page.put_bad_file(bad.line as u64),
    }
    page.at
}
