//! Writes the table of a font.
ghost use Rattle.std.specs.Prelude.{◌≡◌, ℕ, ◌+◌, ◌*◌, ◌^◌, ◌<◌, ◌≤◌, length, take, IfErr, IfOk, IfSome};
ghost use Rattle.tfm_words.specs.declared.table.Table.TheVariants.{Kern, LigKern};
ghost use Rattle.tfm_words.specs.Word.{word_at};
ghost use Rattle.tfm_tables.specs.Table.{entries_of};
ghost use Rattle.tfm_tables.specs.Program.{program_of, right_code_of, step_at};
ghost use Rattle.tfm_tables.specs.Acceptance.{kern_index_of};
ghost use Rattle.prepared_font.specs.Layout.{HasHeader, HasKerns, HasStates, HasSteps, HasWidths, IsPreparedFrom, number_of, state_of, table_length as length_of};

use crate::layout::{MAGIC, NO_CHARACTER, NONE, PROGRAM, STATES, VERSION, WIDTHS};
use crate::putting::{put, put_first, put_word};
use tfm_tables::{FontMetrics, LeftSide};

/// Returns an address as a number, or -1 for none.
fn as_number(found: Option<usize>) -> i32
    requires { IfSome found (λ n. n ≤ 2 ^ 15) }
    ensures { result ≡ number_of found }
{
    match found {
        None => NONE,
        Some(n) => n as i32,
    }
}

/// Returns the state of a code.
#[tactic(auto, unfolding(crate::specs::Layout::state_of))]
fn state(font: &FontMetrics, code: u8) -> i32
    ensures { result ≡ state_of font.now.words code }
{
    // For the proof: an address is below the number of instructions, which is small.
    let _few = font.steps();
    if font.exists(code) {
        as_number(font.start(LeftSide::Char(code)))
    } else {
        NO_CHARACTER
    }
}

/// Writes the header.
fn put_header(font: &FontMetrics, room: &mut [u8])
    requires { 2084 ≤ length room.old }
    ensures long { length room.new ≡ length room.old }
    ensures header { HasHeader font.now room.new }
    ensures right { IfSome (right_code_of (program_of font.now.words)) (λ code. code < 256) }
{
    let steps = font.steps();
    let kerns = font.kerns();
    let right = font.right_boundary();
    let header = [
        MAGIC,
        VERSION,
        4 * (PROGRAM + steps + kerns) as i32,
        steps as i32,
        kerns as i32,
        right.map_or(NONE, i32::from),
        as_number(font.start(LeftSide::Boundary)),
        font.space(),
        font.size().get() as i32,
    ];
    put_first(room, &header);
}

/// Writes the widths.
fn put_widths(font: &FontMetrics, room: &mut [u8])
    requires { 2084 ≤ length room.old }
    ensures long { length room.new ≡ length room.old }
    ensures widths { HasWidths font.now room.new }
    ensures before { (k : ℕ) → k < 9 → word_at room.new k ≡ word_at room.old k }
{
    for code in 0..256 {
        put(room, WIDTHS + code, font.width(code as u8));
    }
}

/// Writes the states.
#[tactic(auto, using(crate::proofs::WordLemmas::same_number))]
fn put_states(font: &FontMetrics, room: &mut [u8])
    requires { 2084 ≤ length room.old }
    ensures long { length room.new ≡ length room.old }
    ensures states { HasStates font.now room.new }
    ensures before { (k : ℕ) → k < 265 → word_at room.new k ≡ word_at room.old k }
{
    for code in 0..256 {
        put(room, STATES + code, state(font, code as u8));
    }
}

/// Writes the instructions.
fn put_steps(font: &FontMetrics, room: &mut [u8])
    requires { length_of font.now.words ≤ length room.old }
    ensures long { length room.new ≡ length room.old }
    ensures steps { HasSteps font.now room.new }
    ensures kerns { (i : ℕ) → i < entries_of font.now.words LigKern → (step_at font.now.words i).skip ≤ 128 → 128 ≤ (step_at font.now.words i).op
        → kern_index_of (step_at font.now.words i) < entries_of font.now.words Kern }
    ensures before { (k : ℕ) → k < 521 → word_at room.new k ≡ word_at room.old k }
{
    for i in 0..font.steps() {
        let step = font.step(i);
        put_word(
            room,
            PROGRAM + i,
            [step.skip, step.next, step.op, step.remainder],
        );
    }
}

/// Writes the kerns.
#[tactic(auto, using(crate::proofs::WordLemmas::same_number))]
fn put_kerns(font: &FontMetrics, room: &mut [u8])
    requires { length_of font.now.words ≤ length room.old }
    ensures long { length room.new ≡ length room.old }
    ensures kerns { HasKerns font.now room.new }
    ensures before { (k : ℕ) → k < 521 + entries_of font.now.words LigKern → word_at room.new k ≡ word_at room.old k }
{
    let first = PROGRAM + font.steps();
    for k in 0..font.kerns() {
        put(room, first + k, font.kern(k));
    }
}

/// Writes the whole table, part by part in the order of the words.
fn put_table(font: &FontMetrics, room: &mut [u8])
    requires { length_of font.now.words ≤ length room.old }
    ensures { IsPreparedFrom font.now room.new }
{
    put_header(font, room);
    put_widths(font, room);
    put_states(font, room);
    put_steps(font, room);
    put_kerns(font, room);
}

/// Returns the number of bytes of the table of a font: 2,084, and four for each instruction and for each kern.
pub fn table_length(font: &FontMetrics) -> usize
    ensures { result ≡ length_of font.now.words }
{
    4 * (PROGRAM + font.steps() + font.kerns())
}

/// Writes the table of a font at the beginning of `room`, and returns the number of its bytes. These bytes, with
/// or without others after them, are what `PreparedFont::open` reads. It allocates no memory.
///
/// The error is that `room` is shorter; it is the number of bytes that the table needs, and `room` is
/// unchanged.
pub fn prepare(font: &FontMetrics, room: &mut [u8]) -> Result<usize, usize>
    ensures used { IfOk result (λ used. used ≡ length_of font.now.words) }
    ensures written { IfOk result (λ used. (n : ℕ) → used ≤ n → IsPreparedFrom font.now (take n room.new)) }
    ensures short { IfErr result (λ needed. (needed ≡ length_of font.now.words) × (length room.old < needed) × (room.new ≡ room.old)) }
{
    let needed = table_length(font);
    if room.len() < needed {
        return Err(needed);
    }
    put_table(font, room);
    Ok(needed)
}
