//! `tfmset_size`: reads a size from a text.
ghost use Rattle.std.specs.Prelude.{◌≡◌, ◌≢◌, ◌⊎◌, ◌↔◌, Some, None};
ghost use Rattle.tex_sizes.specs.Sizes.{size_of};

use crate::arrays::DONE;
use crate::reading::RANGE;
use tex_sizes::read_size;

/// Reports in `size` the size in sp that a text states, such as `12pt`. Returns: 0 after success; 4 if the
/// text states no size from 1 to 134,217,727 sp. After code 4 `size` is unchanged.
#[unsafe(no_mangle)]
pub extern "C" fn tfmset_size(text: &[u8], size: &mut u32) -> u32
    ensures answers { (result ≡ 0) ⊎ (result ≡ 4) }
    ensures range { (result ≡ 4) ↔ (size_of text.now ≡ None) }
    ensures done { result ≡ 0 → size_of text.now ≡ Some size.new }
    ensures kept { result ≢ 0 → size.new ≡ size.old }
{
    match read_size(text) {
        Some(read) => {
            *size = read.get();
            DONE
        }
        None => RANGE,
    }
}
