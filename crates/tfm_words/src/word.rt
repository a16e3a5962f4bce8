ghost use Rattle.std.specs.Prelude.{◌≡◌, ◌+◌, ◌*◌, ◌≤◌, length};
ghost use Rattle.tfm_words.specs.Word.{word_at as word_of};

/// Returns word `i` of a file, counted from 0: the bytes `4 * i` to `4 * i + 3` (tftopl.web,
/// section 6).
pub fn word_at(bytes: &[u8], i: usize) -> [u8; 4]
    requires { 4 * i + 4 ≤ length bytes.now }
    ensures { result ≡ word_of bytes.now i }
{
    let at = 4 * i;
    [bytes[at], bytes[at + 1], bytes[at + 2], bytes[at + 3]]
}
