// Reading: the text to a script, or to the number of its first wrong line.
ghost use Rattle.std.specs.Prelude.{◌≡◌, true, ◌+◌, ◌≤◌, ◌<◌, length, get_or, IfOk};
ghost use Rattle.std.proofs.lemmas.List.Edits.{sets};
ghost use Rattle.script.specs.Numbers.{is_digit, more, scanned, plain, number_at};
ghost use Rattle.script.specs.Lines.{field_at, line_at, section_at, parse, numbers_at};
ghost use Rattle.script.specs.Cursors.{Reads, StandsBehind};

use super::{BadFile, LF, SPACE, Scanned, Script, Section};

// One digit more.
fn more(value: Option<u32>, digit: u8) -> Option<u32>
    requires { is_digit digit ≡ true }
    ensures { result ≡ more value digit }
{
    value?.checked_mul(10)?.checked_add(u32::from(digit - b'0'))
}

// The digits at the front of a text.
fn scan(text: &[u8]) -> Scanned
    ensures { result ≡ scanned text.now }
{
    let mut value = Some(0);
    let mut count = 0;
    for b in text {
        if !b.is_ascii_digit() {
            break;
        }
        value = more(value, *b);
        count += 1;
    }
    Scanned { value, count }
}

// "no needless leading zero"
fn is_plain(first: u8, count: usize) -> bool
    ensures { result ≡ plain first count }
{
    count == 1 || first != b'0' && count != 0
}

// A text and the place in it that is read next.
#[derive(Drop)]
struct Cursor<'a> {
    text: &'a [u8],
    at: usize,
}

impl Cursor<'_> {
    // The byte that is read next; 0 behind the end of the text.
    fn byte(&self) -> u8
        ensures { result ≡ get_or self.now.text.now self.now.at 0 }
    {
        self.text.get(self.at).copied().unwrap_or(0)
    }

    // "Decimal numbers to 4294967295, no needless leading zero"
    fn number(&mut self) -> Option<u32>
        ensures { Reads self.old self.new result (number_at self.old.text.now self.old.at) }
    {
        let digits = scan(self.text.get(self.at..)?);
        let value = digits.value?;
        if !is_plain(self.byte(), digits.count) {
            return None;
        }
        self.at += digits.count;
        Some(value)
    }

    // A number with the byte `mark` behind it; not 0, which is what stands behind the end of the text.
    fn field(&mut self, mark: u8) -> Option<u32>
        requires { 0 < mark }
        ensures { Reads self.old self.new result (field_at self.old.text.now mark self.old.at) }
    {
        let value = self.number()?;
        if self.byte() != mark {
            return None;
        }
        self.at += 1;
        Some(value)
    }

    // "one space between, each line ended by LF": the last number of the line.
    fn line(&mut self, spaces: u32) -> Option<u32>
        ensures { Reads self.old self.new result (line_at self.old.text.now spaces self.old.at) }
    {
        for _ in 0..spaces {
            self.field(SPACE)?;
        }
        self.field(LF)
    }

    // "Two sections, each after its count": its first line has the number `first`, below 2^33, so that no number of a line wraps.
    fn section(&mut self, spaces: u32, first: usize) -> Result<Section, BadFile>
        requires { first ≤ 8589934591 }
        ensures value { result ≡ section_at self.old.text.now spaces first self.old.at }
        ensures place { IfOk result (StandsBehind self.old self.new) }
    {
        let count = self.line(0).ok_or(BadFile { line: first })?;
        let start = self.at;
        for i in 0..count {
            let bad = BadFile {
                line: first + 1 + i as usize,
            };
            self.line(spaces).ok_or(bad)?;
        }
        Ok(Section {
            count,
            start,
            end: self.at,
        })
    }
}

// The whole text: a script, or its first line that is wrong, missing or extra.
#[tactic(auto, unfolding(crate::specs::Lines::parse))]
pub fn parse(text: &[u8]) -> Result<Script, BadFile>
    ensures { result ≡ parse text.now }
{
    let mut cursor = Cursor { text, at: 0 };
    let admissions = cursor.section(1, 1)?;
    let steps = cursor.section(4, admissions.count as usize + 2)?;
    if steps.end != text.len() {
        return Err(BadFile {
            line: admissions.count as usize + steps.count as usize + 3,
        });
    }
    Ok(Script { admissions, steps })
}

// As many numbers as there are words, from a place on, laid out as words.
pub fn numbers(text: &[u8], at: usize, words: &mut [u32])
    ensures { words.new ≡ sets words.old 0 (numbers_at text.now (length words.old) at) }
{
    let mut cursor = Cursor { text, at };
    for word in words.iter_mut() {
        let Some(value) = cursor.number() else {
            return;
        };
        *word = value;
        cursor.at += 1;
    }
}
