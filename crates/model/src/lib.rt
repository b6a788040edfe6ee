// The types of the archive; what they mean is defined in specs/, in the words and order of document 01.
// Holds no step: every step is written in the crates above and proved equal to the definitions here.

#![tactic(auto)]

// "Four record kinds, by a fixed table": a line of it.
#[derive(Clone, Copy, Default)]
pub struct Lengths {
    pub cells: u32,
    pub words: u32,
    pub payload: u32,
}

// "The last two carry the access (read or write, hold, word, value), value 0 for a read."
#[derive(Clone, Copy)]
pub enum Access {
    Read { hold: u32, word: u32 },
    Write { hold: u32, word: u32, value: u32 },
}

// "its phase: resting, ready at a cell, or waiting to swap on a record"
#[derive(Clone, Copy)]
pub enum Phase {
    Resting,
    Ready(u32, Access),
    Waiting(u32, Access),
}

// "A row has: attached or not; passed or not; four holds, each empty (65535) or a cell; swaps made (32 bits); and its phase"
#[derive(Clone, Copy)]
pub struct Row {
    pub attached: bool,
    pub passed: bool,
    pub holds: [u32; 4],
    pub swaps: u32,
    pub phase: Phase,
}

// "the move in hand (stage, meter, old cell called from, target cell, words copied; all 0 when there is none ..)"
// The stage is kept as its number, as the lent bytes have it: "a stage that is none" breaks R2, so one can be met.
#[derive(Clone, Copy, PartialEq, Eq, Default)]
pub struct Move {
    pub stage: u32,
    pub meter: u32,
    pub from: u16,
    pub target: u16,
    pub copied: u32,
}

// "The control record": "a directory of 256 meters, each absent (65535) or a start cell; a map with one bit per cell, set when
// used; the move in hand .. the counts begun, committed, aborted (32 bits)"
#[derive(Clone, Copy)]
pub struct Control {
    pub dir: [u16; 256],
    pub map: [u64; 16],
    pub mv: Move,
    pub begun: u32,
    pub committed: u32,
    pub aborted: u32,
}

// The stages of a move, by number. NoMove is "no move in hand".
#[derive(Clone, Copy, PartialEq, Eq)]
pub enum Stage {
    NoMove = 0,
    FirstBarrier = 1,
    Copying = 2,
    SecondBarrier = 3,
    ThirdBarrier = 4,
}

// 0 none, 1 first barrier, 2 copying, 3 second barrier, 4 third barrier; any other is none.
impl From<u32> for Stage {
    ghost use Rattle.std.specs.Prelude.{◌≡◌};
    ghost use Rattle.model.specs.State.{stage_of};

    ghost from_gives = { λ n stage. stage ≡ stage_of n };

    fn from(n: u32) -> Stage {
        match n {
            1 => Stage::FirstBarrier,
            2 => Stage::Copying,
            3 => Stage::SecondBarrier,
            4 => Stage::ThirdBarrier,
            _ => Stage::NoMove,
        }
    }
}

impl From<Stage> for u32 {
    ghost use Rattle.std.specs.Prelude.{◌≡◌};
    ghost use Rattle.model.specs.State.{stage_number};

    ghost from_gives = { λ stage n. n ≡ stage_number stage };

    fn from(stage: Stage) -> u32 {
        stage as u32
    }
}

// What a call answers; `told` in specs/State.antt lists 01's number and value for each case.
#[derive(Clone, Copy)]
pub enum Answer {
    Refused(u32),
    Admitted(u32),
    Begun(u32),
    BarrierOpen,
    CopyingStarts,
    Copied(u32),
    Committed(u32),
    CalledOff,
    GivenBack,
    Done(u32),
    ReadyAt(u32),
    WaitsOn(u32),
    SwapWon,
    SwapLost,
    Got(u32),
    Written,
}

// "Numbers of refusal": why a step or a call is refused.
#[derive(Clone, Copy, PartialEq, Eq)]
pub enum Reason {
    // "arena is not 8,192 words, or table not eight rows"
    WrongSizes = 1,
    // "state breaks a rule R1 to R8"
    Unsound = 2,
    // "who above 8"
    Nobody = 3,
    // "code is not one of that party's"
    Unknown = 4,
    // "meter above 255, kind above 3 or hold above 3, in a number the step uses"
    TooLarge = 5,
    // "client not attached, and code is not 10"
    Unattached = 6,
    // "ATTACH when attached; ADMIT of a present meter"
    Already = 7,
    // "11 to 15 or 17 by a client not resting; RETIRE or BEGIN with a move in hand"
    Busy = 8,
    // "GO when resting; ADVANCE with no move in hand"
    Idle = 9,
    // "RETIRE, BEGIN or OPEN of an absent meter; READ, WRITE or DROP of an empty hold"
    Absent = 10,
    // "RETIRE of a record some row holds"
    Held = 11,
    // "ADMIT when no free run of that length exists"
    Full = 12,
    // "BEGIN when no free run of that length starts below the record"
    NoneBelow = 13,
    // "word not below the payload size"
    PastPayload = 14,
    // "BEGIN when begun is 4,294,967,295"
    Spent = 15,
}

// A step that is refused answers the number of its reason.
impl From<Reason> for Answer {
    ghost use Rattle.std.specs.Prelude.{◌≡◌};
    ghost use Rattle.model.specs.State.{refusal};

    ghost from_gives = { λ reason answer. answer ≡ refusal reason };

    fn from(reason: Reason) -> Answer {
        Answer::Refused(reason as u32)
    }
}

// A word of the arena that is to be written.
#[derive(Clone, Copy)]
pub struct Put {
    pub at: usize,
    pub word: u32,
}

// What a client's step leaves: its row, the word of the arena that it changes, if any, and the answer. No step but ADMIT changes more.
#[derive(Clone, Copy)]
pub struct Stepped {
    pub row: Row,
    pub change: Option<Put>,
    pub answer: Answer,
}
