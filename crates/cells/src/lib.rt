// The free map, "one bit per cell, set when used": cell c is bit c % 64 of word c / 64. Put, asked, counted, searched.
// Knows nothing of records: what lies outside the 1,024 cells is free and stays so.
#![tactic(auto)]

ghost use Rattle.std.specs.Prelude.{◌≡◌, ◌%◌, ◌<◌};
ghost use Rattle.model.specs.Arena.{put_run, free_cells, fill, lowest_run};
ghost use Rattle.cells.specs.Words.{low_mask, high_mask, bit_of, masked, word_put, free_word, sought, NextCell, found};

const CELLS: u32 = 1024;

// What a cell's bit says of it.
#[derive(Clone, Copy)]
pub enum Cell {
    Free,
    Used,
}

// The cells from `start` on, fewer than a word of the map has bits: they lie in two words at most.
#[derive(Clone, Copy)]
pub struct Run {
    pub start: u32,
    pub cells: u32,
    pub ghost short: { cells < 64 },
}

impl Run {
    // The ones that lie in the word of its start.
    pub fn low_mask(self) -> u64
        ensures { result ≡ low_mask (self.start % 64) self.cells }
    {
        ((1u64 << self.cells) - 1) << (self.start % 64)
    }

    // Those that run over into the next word.
    pub fn high_mask(self) -> u64
        ensures { result ≡ high_mask (self.start % 64) self.cells }
    {
        (((1u64 << self.cells) - 1) >> 1) >> (63 - self.start % 64)
    }

    // "Its cells become used"; "cells free".
    pub fn put(self, map: &mut [u64; 16], to: Cell)
        ensures { map.new ≡ put_run map.old self.start self.cells (bit_of to) }
    {
        let w = (self.start / 64) as usize;
        put_word(map, w, self.low_mask(), to);
        put_word(map, w + 1, self.high_mask(), to);
    }

    // Its cells are free.
    pub fn is_free(self, map: &[u64; 16]) -> bool
        ensures { result ≡ free_cells map.now self.start self.cells }
    {
        let w = (self.start / 64) as usize;
        is_free_word(map, w, self.low_mask()) && is_free_word(map, w + 1, self.high_mask())
    }
}

// The word with the mask's ones put.
fn put_mask(word: u64, mask: u64, to: Cell) -> u64
    ensures { result ≡ masked word mask to }
{
    match to {
        Cell::Used => word | mask,
        Cell::Free => word & !mask,
    }
}

// A mask put into word w; past the map's end nothing is put.
fn put_word(map: &mut [u64; 16], w: usize, mask: u64, to: Cell)
    ensures { map.new ≡ word_put map.old w mask to }
{
    if w < map.len() {
        map[w] = put_mask(map[w], mask, to);
    }
}

// No cell of the mask is used in word w; past the map's end none is.
fn is_free_word(map: &[u64; 16], w: usize, mask: u64) -> bool
    ensures { result ≡ free_word map.now w mask }
{
    map.get(w).copied().unwrap_or(0) & mask == 0
}

// "Fill is the number of used cells, by counting the map's ones."
pub fn fill(map: &[u64; 16]) -> u32
    ensures { result ≡ fill map.now }
{
    map.iter().map(|w| w.count_ones()).sum()
}

// The word whose ones are the cells that are sought.
fn ones_of(word: u64, which: Cell) -> u64
    ensures { result ≡ sought word which }
{
    match which {
        Cell::Used => word,
        Cell::Free => !word,
    }
}

// The first used, or the first free, cell from `from` on.
// A loop, since it enters the first word in its midst and the others at their start: a chain over the words tells them apart.
fn next_cell(map: &[u64; 16], from: u32, which: Cell) -> Option<u32>
    ensures { NextCell map.now from which result }
{
    let mut c = from;
    while c < CELLS {
        let ahead = (ones_of(map[(c / 64) as usize], which) >> (c % 64)).trailing_zeros();
        if ahead < 64 {
            return Some(c + ahead);
        }
        c = (c / 64 + 1) * 64;
    }
    None
}

// "the lowest run of free cells long enough": from each free cell to the next used one, the first such stretch that is.
// A loop, since each turn starts where the last stretch ended: a chain would need an iterator of stretches and its laws.
pub fn find_run(map: &[u64; 16], n: u32) -> Option<u32>
    ensures { result ≡ found (lowest_run map.now n) }
{
    // A run of no cells starts at cell 0.
    if n == 0 {
        return Some(0);
    }
    let mut c = 0;
    while let Some(start) = next_cell(map, c, Cell::Free) {
        let end = next_cell(map, start, Cell::Used).unwrap_or(CELLS);
        if n <= end - start {
            return Some(start);
        }
        c = end + 1;
    }
    None
}
