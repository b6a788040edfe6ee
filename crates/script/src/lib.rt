// Replay's text: reading a script of admissions and steps, and printing numbers, on slices of bytes.
// Knows nothing of records and moves: what a step does is not its matter.
#![tactic(auto)]

pub mod printing;
pub mod reading;

const SPACE: u8 = b' ';

const LF: u8 = b'\n';

// What digits write, if it is at most 4294967295, and how many they are.
#[derive(Clone, Copy)]
pub struct Scanned {
    pub value: Option<u32>,
    pub count: usize,
}

// A section: its count, the place of its first line, the place behind it.
#[derive(Clone, Copy)]
pub struct Section {
    pub count: u32,
    pub start: usize,
    pub end: usize,
}

// "Two sections, each after its count"
#[derive(Clone, Copy)]
pub struct Script {
    pub admissions: Section,
    pub steps: Section,
}

// A text that is no script: the number of its first line that is wrong, missing or extra.
#[derive(Clone, Copy)]
pub struct BadFile {
    pub line: usize,
}
