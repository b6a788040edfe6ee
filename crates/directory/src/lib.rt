// "a directory of 256 meters, each absent (65535) or a start cell": an entry read and set.
// Lent, never copied; knows nothing of records; total.
#![tactic(auto)]

ghost use Rattle.std.specs.Prelude.{◌≡◌, set};
ghost use Rattle.model.specs.State.{entry};
ghost use Rattle.directory.specs.Entries.{start_of};

// "absent (65535)"
pub const ABSENT: u16 = 65535;

// The directory's entry of a meter as it lies, 65535 where absent: 01 lays it in a hold and compares it with holds, which say so too.
pub fn entry_of(dir: &[u16; 256], meter: u32) -> u16
    ensures { result ≡ entry dir.now meter }
{
    dir.get(meter as usize).copied().unwrap_or(ABSENT)
}

// The start cell of a meter's record, where the meter is present.
pub fn find(dir: &[u16; 256], meter: u32) -> Option<u16>
    ensures { result ≡ start_of dir.now meter }
{
    Some(entry_of(dir, meter)).filter(|entry| *entry != ABSENT)
}

// The entry of a meter becomes a cell; a meter above 255 has none. By index: a write through `get_mut` leaves unknown what the array holds.
pub fn set_entry(dir: &mut [u16; 256], meter: u32, cell: u16)
    ensures { dir.new ≡ set dir.old meter cell }
{
    if meter < 256 {
        dir[meter as usize] = cell;
    }
}
