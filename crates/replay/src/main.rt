// Replay: reads standard input, one byte more than the most it takes, and prints what `play` makes of it.
#![tactic(auto)]

ghost use Rattle.std.specs.Prelude.{List, ℕ, OnOk, IfOk, IfErr, IfSome, ◌≢◌, ◌≤◌, ◌<◌, length, take};
ghost use Rattle.std.specs.Io.KnownBytes.{Appends, Consumes, IsAtEnd};
ghost use Rattle.std.specs.IoError.{error_kind};
ghost use Rattle.play.specs.Plays.{replay_text};

use std::io;
use std::io::{ErrorKind, Read, Write};

// Reads until the buffer is full or the input ends, and says how many bytes. A read that was interrupted is made again.
fn read_full<R: Read>(input: &mut R, buffer: &mut [u8]) -> io::Result<usize>
    ensures within { IfOk result (λ n. n ≤ length buffer.new) }
    ensures bytes { IfOk result (λ n. Consumes (R.remaining input.old) (R.remaining input.new) (take n buffer.new)) }
    ensures end { IfOk result (λ n. n < length buffer.new → IsAtEnd (R.remaining input.new)) }
    ensures retried { IfErr result (λ e. error_kind e ≢ ErrorKind.Interrupted) }
{
    let mut n = 0;
    for _ in 0..u64::MAX {
        if n >= buffer.len() {
            return Ok(n);
        }
        match input.read(&mut buffer[n..]) {
            Ok(0) => return Ok(n),
            Ok(more) => n += more,
            Err(e) if e.kind() == ErrorKind::Interrupted => {}
            Err(e) => return Err(e),
        }
    }
    Err(io::Error::new(ErrorKind::TimedOut, "gave up reading after 2^64 tries"))
}

// The whole program on any reader and writer. After Ok, where the bytes to be read are known: what is written is what they say, all of it.
fn run<R: Read + Drop, W: Write>(mut input: R, output: &mut W) -> io::Result<()>
    ensures { OnOk result (IfSome (R.remaining input) (λ text.
        Appends (W.contents output.old) (W.contents output.new) (replay_text text))) }
{
    // One byte more than the most that is taken.
    let mut text = [0u8; 65537];
    let n = read_full(&mut input, &mut text)?;
    let mut page = [0u8; 229440];
    let r = play::replay(&text[..n], &mut page);
    output.write_all(&page[..r])
}

fn main(rt: HostRuntime) -> io::Result<()> {
    run(rt.reader(), &mut io::writer(&rt))
}
