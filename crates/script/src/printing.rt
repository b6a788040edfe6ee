// Printing: numbers and lines on a page of lent bytes.
ghost use Rattle.std.specs.Prelude.{◌≡◌, [], ◌∷◌};
ghost use Rattle.script.specs.Printing.{page, decimal, line1, line2, bad_file, too_long};
ghost use Rattle.script.specs.Pages.{seen, Writes};
ghost use Rattle.script.specs.Replay.{five_totals};

use super::{LF, SPACE};

// Lent bytes and the place of the next one; what has no room is not written.
#[derive(Drop)]
pub struct Page<'a> {
    pub out: &'a mut [u8],
    pub at: usize,
}

// "five totals: begun, committed, aborted, all swaps, fill"
#[derive(Clone, Copy)]
pub struct Totals {
    pub begun: u32,
    pub committed: u32,
    pub aborted: u32,
    pub swaps: u64,
    pub fill: u32,
}

impl<'a> Page<'a> {
    // Nothing is written yet.
    pub fn new(out: &'a mut [u8]) -> Page<'a>
        ensures same_reference { result.out.ghost_name ≡ out.entry.ghost_name }
        ensures blank { seen result ≡ page out.old 0 }
    {
        Page { out, at: 0 }
    }

    // One byte more.
    fn put(&mut self, b: u8)
        ensures { Writes self.old self.new (b ∷ []) }
    {
        if self.at < self.out.len() {
            self.out[self.at] = b;
            self.at += 1;
        }
    }

    // A number in decimal, no needless leading zero. Not by `write!`, whose result each caller would drop: a page refuses nothing.
    fn put_number(&mut self, n: u64)
        ensures { Writes self.old self.new (decimal n) }
    {
        if 10 <= n {
            self.put_number(n / 10);
        }
        self.put((n % 10) as u8 + b'0');
    }

    // A line of one number.
    pub fn put_line(&mut self, n: u64)
        ensures { Writes self.old self.new (line1 n) }
    {
        self.put_number(n);
        self.put(LF);
    }

    // "answer and value": a line of two numbers.
    pub fn put_pair(&mut self, answer: u32, value: u32)
        ensures { Writes self.old self.new (line2 answer value) }
    {
        self.put_number(answer as u64);
        self.put(SPACE);
        self.put_line(value as u64);
    }

    // Bytes as they are.
    fn put_text(&mut self, text: &[u8])
        ensures { Writes self.old self.new text.now }
    {
        for b in text {
            self.put(*b);
        }
    }

    // `bad file N`
    pub fn put_bad_file(&mut self, line: u64)
        ensures { Writes self.old self.new (bad_file line) }
    {
        self.put_text(b"bad file ");
        self.put_line(line);
    }

    // `too long`
    pub fn put_too_long(&mut self)
        ensures { Writes self.old self.new too_long }
    {
        self.put_text(b"too long\n");
    }

    // "then five totals", after their count
    pub fn put_totals(&mut self, t: Totals)
        ensures { Writes self.old self.new (five_totals t.begun t.committed t.aborted t.swaps t.fill) }
    {
        self.put_line(5);
        self.put_line(t.begun as u64);
        self.put_line(t.committed as u64);
        self.put_line(t.aborted as u64);
        self.put_line(t.swaps);
        self.put_line(t.fill as u64);
    }
}
