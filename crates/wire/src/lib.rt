// Numbers in bytes, lowest byte first: one number, and lists of them, of two, four and eight bytes.
// Knows nothing of what the numbers mean. Each `requires` says that the bytes are there.
#![tactic(auto)]

ghost use Rattle.std.specs.Prelude.{◌≡◌, ◌+◌, ◌*◌, ◌≤◌, ℕ, List, length};
ghost use Rattle.std.specs.List.{flat_map};
ghost use Rattle.model.specs.Arena.{laid};
ghost use Rattle.wire.specs.Bytes.{number, bytes, each_at, length_bytes};

// A number of SIZE bytes: what stands at a place, and the bytes that are put there.
pub trait Number: Copy {
    const SIZE: usize;

    ghost SIZE: { ℕ };

    ghost number: { List ℕ → ℕ → Self };

    ghost bytes: { Self → List ℕ };

    fn get(b: &[u8], at: usize) -> Self
        requires { at + SIZE ≤ length b.now }
        ensures { result ≡ number b.now at };

    fn put(self, b: &mut [u8], at: usize)
        requires { at + SIZE ≤ length b.old }
        ensures { b.new ≡ laid b.old at (bytes self) };

    ghost length_bytes: { (w : Self) → length (bytes w) ≡ SIZE };
}

impl Number for u16 {
    const SIZE: usize = 2;

    ghost SIZE = { 2 };

    ghost number = { number 2 };

    ghost bytes = { bytes 2 };

    ghost length_bytes = { length_bytes 2 };

    #[tactic(auto, using(crate::proofs::Bytes::number_le))]
    fn get(b: &[u8], at: usize) -> u16 {
        u16::from_le_bytes(b[at..at + 2].try_into().unwrap())
    }

    #[tactic(auto, using(crate::proofs::Bytes::put_le))]
    fn put(self, b: &mut [u8], at: usize) {
        b[at..at + 2].copy_from_slice(&self.to_le_bytes());
    }
}

impl Number for u32 {
    const SIZE: usize = 4;

    ghost SIZE = { 4 };

    ghost number = { number 4 };

    ghost bytes = { bytes 4 };

    ghost length_bytes = { length_bytes 4 };

    #[tactic(auto, using(crate::proofs::Bytes::number_le))]
    fn get(b: &[u8], at: usize) -> u32 {
        u32::from_le_bytes(b[at..at + 4].try_into().unwrap())
    }

    #[tactic(auto, using(crate::proofs::Bytes::put_le))]
    fn put(self, b: &mut [u8], at: usize) {
        b[at..at + 4].copy_from_slice(&self.to_le_bytes());
    }
}

impl Number for u64 {
    const SIZE: usize = 8;

    ghost SIZE = { 8 };

    ghost number = { number 8 };

    ghost bytes = { bytes 8 };

    ghost length_bytes = { length_bytes 8 };

    #[tactic(auto, using(crate::proofs::Bytes::number_le))]
    fn get(b: &[u8], at: usize) -> u64 {
        u64::from_le_bytes(b[at..at + 8].try_into().unwrap())
    }

    #[tactic(auto, using(crate::proofs::Bytes::put_le))]
    fn put(self, b: &mut [u8], at: usize) {
        b[at..at + 8].copy_from_slice(&self.to_le_bytes());
    }
}

// The numbers in the bytes from a place on: as many as `out` holds.
#[tactic(auto, using(crate::proofs::Bytes::one_in), unfolding(crate::specs::Bytes::each_at))]
pub fn numbers_in<T: Number>(b: &[u8], at: usize, out: &mut [T])
    requires { at + T.SIZE * length out.old ≤ length b.now }
    ensures { out.new ≡ each_at T.number T.SIZE (length out.old) b.now at }
{
    for (i, x) in out.iter_mut().enumerate() {
        *x = T::get(b, at + T::SIZE * i);
    }
}

// The bytes of some numbers are put at a place.
pub fn numbers_out<T: Number>(b: &mut [u8], at: usize, ws: &[T])
    requires { at + T.SIZE * length ws.now ≤ length b.old }
    ensures { b.new ≡ laid b.old at (flat_map T.bytes ws.now) }
{
    for (i, w) in ws.iter().enumerate() {
        w.put(b, at + T::SIZE * i);
    }
}
