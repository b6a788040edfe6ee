// Control record, arena and client table in one buffer of bytes (docs/LAYOUT.md): decoded and encoded.
// Knows nothing of calls and refusals: it takes any contents.
#![tactic(auto)]

ghost use Rattle.std.specs.Prelude.{◌≡◌};
ghost use Rattle.model.specs.Arena.{laid};
ghost use Rattle.buffer.specs.Buffer.{move_in, control_in, joined, move_parts, count_parts, bytes_in, Decoded};

use model::{Control, Move};
use wire::{Number, numbers_in, numbers_out};

// One fixed size in bytes: the control record, 8,192 words of the arena, eight rows of twelve words.
pub const SIZE: usize = 668 + 4 * 8192 + 4 * 96;

// "the move in hand (stage, meter, old cell called from, target cell, words copied ..)", from its 16 bytes.
#[tactic(auto, unfolding(crate::specs::Buffer::move_in))]
fn move_in(b: &[u8; SIZE]) -> Move
    ensures { result ≡ move_in b.now }
{
    Move {
        stage: u32::get(b, 640),
        meter: u32::get(b, 644),
        from: u16::get(b, 648),
        target: u16::get(b, 650),
        copied: u32::get(b, 652),
    }
}

// The control record: directory, map, move and counts, one behind the other.
#[tactic(auto, unfolding(crate::specs::Buffer::control_in))]
fn control_in(b: &[u8; SIZE]) -> Control
    ensures { result ≡ control_in b.now }
{
    let mut dir = [0; 256];
    let mut map = [0; 16];
    numbers_in(b, 0, &mut dir);
    numbers_in(b, 512, &mut map);
    Control {
        dir,
        map,
        mv: move_in(b),
        begun: u32::get(b, 656),
        committed: u32::get(b, 660),
        aborted: u32::get(b, 664),
    }
}

// The move in hand, into its 16 bytes.
fn move_out(b: &mut [u8; SIZE], mv: Move)
    ensures { b.new ≡ laid b.old 640 (joined (move_parts mv)) }
{
    mv.stage.put(b, 640);
    mv.meter.put(b, 644);
    mv.from.put(b, 648);
    mv.target.put(b, 650);
    mv.copied.put(b, 652);
}

// "the counts begun, committed, aborted (32 bits)", into their 12 bytes.
fn counts_out(b: &mut [u8; SIZE], control: &Control)
    ensures { b.new ≡ laid b.old 656 (joined (count_parts control.now)) }
{
    control.begun.put(b, 656);
    control.committed.put(b, 660);
    control.aborted.put(b, 664);
}

// Every byte of the buffer: the control record in 668, then each word of arena and table.
pub fn state_out(b: &mut [u8; SIZE], control: &Control, arena: &[u32; 8192], table: &[u32; 96])
    ensures { b.new ≡ bytes_in control.now arena.now table.now }
{
    numbers_out(b, 0, &control.dir);
    numbers_out(b, 512, &control.map);
    move_out(b, control.mv);
    counts_out(b, control);
    numbers_out(b, 668, arena);
    numbers_out(b, 33436, table);
}

// Every byte is read: the control record by value, arena and table into words.
pub fn state_in(b: &[u8; SIZE], arena: &mut [u32; 8192], table: &mut [u32; 96]) -> Control
    ensures { Decoded result arena.new table.new b.now }
{
    numbers_in(b, 668, arena);
    numbers_in(b, 33436, table);
    control_in(b)
}
