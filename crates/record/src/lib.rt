// The words of a record: header and label packed and unpacked, the kind table, one word of the arena read or written.
// Knows nothing of directory, map, clients or soundness; each function is total.
#![tactic(auto)]

ghost use Rattle.std.specs.Prelude.{◌≡◌, true, false, get_or, set, replicate};
ghost use Rattle.model.specs.Arena.{of_kind, start, place, header, label, label_of, kind_of, payload_place, new_record, laid};
ghost use Rattle.model.specs.ClientSteps.{changed};
ghost use Rattle.record.specs.Words.{unpacked, unpacked_label};

// "2 × target cell + flag: the lowest bit says that the record is being copied"
#[derive(Clone, Copy, PartialEq, Eq)]
pub struct Header {
    pub target: u32,
    pub flag: bool,
}

impl Header {
    // "2 × cell": the header of a record that is not being copied.
    pub fn plain(cell: u32) -> Header
        ensures { result ≡ record { target = cell; flag = false } }
    {
        Header {
            target: cell,
            flag: false,
        }
    }

    // "2 × cell + 1": of one that is.
    pub fn flagged(cell: u32) -> Header
        ensures { result ≡ record { target = cell; flag = true } }
    {
        Header {
            target: cell,
            flag: true,
        }
    }
}

impl From<u32> for Header {
    ghost use Rattle.record.specs.Words.{unpacked};

    ghost from_gives = { λ h header. header ≡ unpacked h };

    fn from(h: u32) -> Header {
        Header {
            target: h >> 1,
            flag: h & 1 == 1,
        }
    }
}

impl From<Header> for u32 {
    ghost use Rattle.record.specs.Words.{packed};

    ghost from_gives = { λ header h. h ≡ packed header.target header.flag };

    fn from(header: Header) -> u32 {
        (header.target << 1) | (header.flag as u32)
    }
}

// "the label, 4 × meter + kind"
#[derive(Clone, Copy, PartialEq, Eq)]
pub struct Label {
    pub meter: u32,
    pub kind: u32,
}

impl From<u32> for Label {
    ghost use Rattle.record.specs.Words.{unpacked_label};

    ghost from_gives = { λ l label. label ≡ unpacked_label l };

    fn from(l: u32) -> Label {
        Label {
            meter: l >> 2,
            kind: l & 3,
        }
    }
}

// "Four record kinds, by a fixed table": cells, words, payload words.
const KINDS: [model::Lengths; 4] = [
    model::Lengths {
        cells: 1,
        words: 8,
        payload: 6,
    },
    model::Lengths {
        cells: 2,
        words: 16,
        payload: 14,
    },
    model::Lengths {
        cells: 4,
        words: 32,
        payload: 30,
    },
    model::Lengths {
        cells: 8,
        words: 64,
        payload: 62,
    },
];

// Of bytes, which always have room in the word: so no From, which would take any numbers.
fn pack_label(meter: u8, kind: u8) -> u32
    ensures { result ≡ label_of meter kind }
{
    ((meter as u32) << 2) + (kind as u32)
}

// The lengths of a kind; a kind above 3 has none.
#[tactic(auto, unfolding(model::specs::Arena::of_kind, model::specs::Arena::kind_table))]
pub fn lengths_of(kind: u32) -> model::Lengths
    ensures { result ≡ of_kind kind }
{
    KINDS.get(kind as usize).copied().unwrap_or_default()
}

// "cell c starts at word 8c"
pub fn place(cell: u32, word: u32) -> usize
    ensures { result ≡ place cell word }
{
    8 * (cell as usize) + (word as usize)
}

// "The payload follows, numbered from 0."
pub fn payload_place(cell: u32, word: u32) -> usize
    ensures { result ≡ payload_place cell word }
{
    8 * (cell as usize) + (2 + (word as usize))
}

// A word of the arena; past its end it reads 0.
pub fn load(arena: &[u32], at: usize) -> u32
    ensures { result ≡ get_or arena.now at 0 }
{
    arena.get(at).copied().unwrap_or(0)
}

// A word of the arena becomes w; past its end nothing is written.
pub fn store(arena: &mut [u32], at: usize, w: u32)
    ensures { arena.new ≡ set arena.old at w }
{
    if at < arena.len() {
        arena[at] = w;
    }
}

// Word 0 of the record at a cell.
pub fn read_header(arena: &[u32], cell: u32) -> Header
    ensures { result ≡ unpacked (header arena.now cell) }
{
    Header::from(load(arena, place(cell, 0)))
}

// "Word 1 is the label"
pub fn read_label(arena: &[u32], cell: u32) -> Label
    ensures { result ≡ unpacked_label (label arena.now cell) }
{
    Label::from(load(arena, place(cell, 1)))
}

// "kind read from" the label of the record at a cell.
pub fn lengths_at(arena: &[u32], cell: u32) -> model::Lengths
    ensures { result ≡ of_kind (kind_of (label arena.now cell)) }
{
    lengths_of(read_label(arena, cell).kind)
}

// The word that a step changed.
pub fn apply(arena: &mut [u32], change: Option<model::Put>)
    ensures { arena.new ≡ changed arena.old change }
{
    if let Some(put) = change {
        store(arena, put.at, put.word);
    }
}

// "payload zero": n payload words of the record at a cell.
fn clear_payload(arena: &mut [u32], cell: u32, n: u32)
    ensures { arena.new ≡ laid arena.old (payload_place cell 0) (replicate n 0) }
{
    for i in 0..n {
        store(arena, payload_place(cell, i), 0);
    }
}

// ADMIT: "Header 2c, label set, payload zero."
pub fn lay_record(arena: &mut [u32], c: u16, meter: u8, kind: u8)
    ensures { arena.new ≡ laid arena.old (start c) (new_record c meter kind) }
{
    let cell = c as u32;
    let lengths = lengths_of(kind as u32);
    store(arena, place(cell, 0), u32::from(Header::plain(cell)));
    store(arena, place(cell, 1), pack_label(meter, kind));
    clear_payload(arena, cell, lengths.payload);
}
