// The exported form for the C head-end: the calls on one buffer of bytes.
// Decides nothing itself: it has the buffer decoded, calls the archive, and has what an accepted call leaves encoded.
#![tactic(auto)]

ghost use Rattle.std.specs.Prelude.{◌≡◌, ◌*◌, false, length, MatchOption};
ghost use Rattle.model.specs.State.{State, Outcome};
ghost use Rattle.model.specs.Steps.{step};
ghost use Rattle.wire.specs.Bytes.{all_bytes};
ghost use Rattle.archive.specs.Does.{is_refused};
ghost use Rattle.buffer.specs.Buffer.{bytes_in};
ghost use Rattle.headend.specs.Exported.{coded, kept, exported, fresh_bytes, step_bytes, fill_result, audit_result, run_bytes_fit, run_on, run_bytes};
ghost use Rattle.headend.specs.Exported.{ran_bytes, RunFit, Writes, Looks, CallGives, RunGives, Finishes};

use answers::Told;
use archive::Reply;
use buffer::SIZE;
use model::{Answer, Control, Reason};
use wire::{numbers_in, numbers_out};

// Answer and value in one number: answer × 2^32 + value. No `From` may stand here: `Answer` and `u64` are both of other crates.
#[tactic(auto, unfolding(crate::specs::Exported::coded))]
fn coded(answer: Answer) -> u64
    ensures { result ≡ coded answer }
{
    let told = Told::from(answer);
    u64::from(told.number) * 4294967296 + u64::from(told.value)
}

// Numbers of refusal are below 20. By the number, as the contracts and C have it: no contract says that a `Refused` holds a lower one.
fn is_refused(answer: Answer) -> bool
    ensures { result ≡ is_refused answer }
{
    Told::from(answer).number < 20
}

// "A wrong size gets 1."
fn wrong_size() -> u64
    ensures { result ≡ coded (Answer.Refused 1) }
{
    coded(Reason::WrongSizes.into())
}

// A refused call writes no byte of the buffer. Inlined, fresh sets the bytes in place, in a quarter of the time.
#[inline]
#[tactic(auto, unfolding(crate::specs::Exported::kept))]
fn finish(
    b: &mut [u8; SIZE],
    answer: Answer,
    control: &Control,
    arena: &[u32; 8192],
    table: &[u32; 96],
) -> u64
    ensures { Finishes result b.new b.old answer (bytes_in control.now arena.now table.now) }
{
    if !is_refused(answer) {
        buffer::state_out(b, control, arena, table);
    }
    coded(answer)
}

// A call that may change what the bytes mean.
fn called<F: FnOnce(Control, &mut [u32], &mut [u32]) -> Reply>(buffer: &mut [u8], call: F) -> u64
    ghost does: { State → Outcome }
    requires callable { F.IsAlwaysCallable call }
    requires met { Writes (F.post call) does }
    ensures { CallGives result buffer.new (exported buffer.old does) }
{
    let Some(b) = buffer.as_mut_array() else {
        return wrong_size();
    };
    let mut arena = [0; 8192];
    let mut table = [0; 96];
    let control = buffer::state_in(b, &mut arena, &mut table);
    let reply = call(control, &mut arena, &mut table);
    finish(b, reply.answer, &reply.control, &arena, &table)
}

// A call that only looks.
fn looked<F: FnOnce(Control, &[u32], &[u32]) -> Reply>(buffer: &[u8], look: F) -> u64
    ghost does: { State → Outcome }
    requires callable { F.IsAlwaysCallable look }
    requires met { Looks (F.post look) does }
    ensures { result ≡ (exported buffer.now does).result }
{
    let Some(b) = buffer.as_array() else {
        return wrong_size();
    };
    let mut arena = [0; 8192];
    let mut table = [0; 96];
    let control = buffer::state_in(b, &mut arena, &mut table);
    coded(look(control, &arena, &table).answer)
}

// "Fresh zeroes the arena, empties the directory, map and counts, and leaves eight unattached rows"
#[unsafe(no_mangle)]
pub extern "C" fn tangvrak_fresh(buffer: &mut [u8]) -> u64
    ensures { CallGives result buffer.new (fresh_bytes buffer.old) }
{
    called(buffer, archive::fresh)
}

// One step: "A step is five numbers: who, code, a, b, v."
#[unsafe(no_mangle)]
pub extern "C" fn tangvrak_step(
    buffer: &mut [u8],
    who: u32,
    code: u32,
    a: u32,
    b: u32,
    v: u32,
) -> u64
    ensures { CallGives result buffer.new (step_bytes buffer.old (step who code a b v)) }
{
    called(buffer, move |control, arena, table| {
        archive::step(control, arena, table, who, code, a, b, v)
    })
}

// "Fill is the number of used cells": 30 with the figure.
#[unsafe(no_mangle)]
pub extern "C" fn tangvrak_fill(buffer: &[u8]) -> u64
    ensures { result ≡ fill_result buffer.now }
{
    looked(buffer, archive::fill)
}

// "Audit's value, beside answer 30, is 0 or the number of the first broken rule."
#[unsafe(no_mangle)]
pub extern "C" fn tangvrak_audit(buffer: &[u8]) -> u64
    ensures { result ≡ audit_result buffer.now }
{
    looked(buffer, archive::audit)
}

// "1 or 2 refuses the whole run and writes no answers"
#[tactic(auto, using(model::proofs::Records::laid_all, wire::proofs::Bytes::length_all), unfolding(crate::specs::Exported::kept))]
fn slots_out(slots: &mut [u8], answers: &[u32], answer: Answer)
    requires { length slots.old ≡ 4 * length answers.now }
    ensures { slots.new ≡ kept answer slots.old (all_bytes 4 answers.now) }
{
    if !is_refused(answer) {
        numbers_out(slots, 0, answers);
    }
}

// How many steps a run has, 20 bytes each, with 8 bytes for the slot of each; none where the sizes are other ones.
#[tactic(auto, unfolding(crate::specs::Exported::run_bytes_fit))]
fn run_steps(steps: usize, slots: usize) -> Option<usize>
    ensures { MatchOption result (run_bytes_fit steps slots ≡ false) (RunFit steps slots) }
{
    let n = steps / 20;
    if n <= 4096 && steps == 20 * n && slots == 8 * n {
        Some(n)
    } else {
        None
    }
}

// The run, where all sizes fit: steps and slots are read into `words` and `answers`, as many words as they have.
// Not by `called`: tried, and the proof learns nothing of what a closure writes through its captures, here the answers.
fn run_words(
    b: &mut [u8; SIZE],
    steps: &[u8],
    slots: &mut [u8],
    words: &mut [u32],
    answers: &mut [u32],
) -> u64
    requires { (length steps.now ≡ 4 * length words.old)
        × (length slots.old ≡ 4 * length answers.old) }
    ensures { RunGives result b.new slots.new (ran_bytes b.old slots.old
        (run_on b.old steps.now slots.old (length words.old)
        (length answers.old))) }
{
    let mut arena = [0; 8192];
    let mut table = [0; 96];
    let control = buffer::state_in(b, &mut arena, &mut table);
    numbers_in(steps, 0, words);
    numbers_in(slots, 0, answers);
    let reply = archive::run(control, &mut arena, &mut table, words, answers);
    slots_out(slots, answers, reply.answer);
    finish(b, reply.answer, &reply.control, &arena, &table)
}

// "A run of up to 4,096 steps (five words each, with a two-word answer slot for each; any other sizes are refused by 1) checks
// soundness once and equals the steps one by one."
#[unsafe(no_mangle)]
pub extern "C" fn tangvrak_run(buffer: &mut [u8], steps: &[u8], slots: &mut [u8]) -> u64
    ensures { RunGives result buffer.new slots.new
        (run_bytes buffer.old steps.now slots.old) }
{
    let Some(b) = buffer.as_mut_array() else {
        return wrong_size();
    };
    let Some(n) = run_steps(steps.len(), slots.len()) else {
        return wrong_size();
    };
    let mut words = [0; 20480];
    let mut answers = [0; 8192];
    run_words(b, steps, slots, &mut words[..5 * n], &mut answers[..2 * n])
}
