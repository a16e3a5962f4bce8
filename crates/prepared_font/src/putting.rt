//! Words that are written into a table in the order of their indices.
ghost use Rattle.std.specs.Prelude.{◌≡◌, ℕ, pos, ◌+◌, ◌*◌, ◌<◌, ◌≤◌, get_or, length};
ghost use Rattle.tfm_words.specs.Word.{word_at};
ghost use Rattle.prepared_font.specs.Layout.{number_at};

/// Writes word `i`; the words before it are unchanged.
pub(crate) fn put_word(room: &mut [u8], i: usize, word: [u8; 4])
    requires { 4 * i + 4 ≤ length room.old }
    ensures long { length room.new ≡ length room.old }
    ensures here { word_at room.new i ≡ word }
    ensures before { (k : ℕ) → k < i → word_at room.new k ≡ word_at room.old k }
{
    room[4 * i..4 * i + 4].copy_from_slice(&word);
}

/// Writes a number as word `i`; the words before it are unchanged.
pub(crate) fn put(room: &mut [u8], i: usize, n: i32)
    requires { 4 * i + 4 ≤ length room.old }
    ensures long { length room.new ≡ length room.old }
    ensures here { number_at room.new i ≡ n }
    ensures before { (k : ℕ) → k < i → word_at room.new k ≡ word_at room.old k }
{
    put_word(room, i, n.to_be_bytes());
}

/// Writes numbers as the first words.
#[tactic(auto, using(crate::proofs::WordLemmas::same_number))]
pub(crate) fn put_first(room: &mut [u8], numbers: &[i32])
    requires { 4 * length numbers.now ≤ length room.old }
    ensures long { length room.new ≡ length room.old }
    ensures numbers { (k : ℕ) → k < length numbers.now → number_at room.new k ≡ get_or numbers.now k (pos 0) }
{
    for i in 0..numbers.len() {
        put(room, i, numbers[i]);
    }
}
