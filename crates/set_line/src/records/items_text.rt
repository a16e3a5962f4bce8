//! The texts of the items of a line, joined together.
ghost use Rattle.std.specs.Prelude.{◌≡◌, ◌+◌, ◌*◌, ◌≤◌, ◌++◌, OnOk, length, drop, flat_map};
ghost use Rattle.lig_kern.specs.declared.item.Item.TheVariants.{Skipped};
ghost use Rattle.set_line.specs.Record.{text_in};

use crate::Version;
use crate::records::digits::push_character;
use crate::records::writing::{ITEM_BYTES, write_item_text};
use lig_kern::Item;
use std::alloc::AllocError;

/// The number of items whose texts are collected before they are appended with one call.
const ITEMS_AT_ONCE: usize = 24;

/// Writes the texts of items at the end of `text`, and returns their start.
#[tactic(auto, using(crate::proofs::WritingLemmas::items))]
fn write_items(text: &mut [u8], items: &[Item], version: Version) -> usize
    requires { length items.now * 22 ≤ length text.old }
    ensures place { result ≤ length text.old }
    ensures written { drop result text.new ≡ flat_map (text_in version) items.now }
{
    let mut at = text.len();
    let mut left = items.len();
    while left > 0 {
        left -= 1;
        at = write_item_text(text, at, &items[left], version);
    }
    at
}

/// Appends the texts of items. After an error some of the bytes may have been appended.
pub fn append_items(texts: &mut Vec<u8>, items: &[Item], version: Version) -> Result<(), AllocError>
    ensures { OnOk result (texts.new.items ≡ texts.old.items ++ flat_map (text_in version) items.now) }
{
    let mut room = [0; ITEMS_AT_ONCE * ITEM_BYTES];
    let mut rest = items;
    while !rest.is_empty() {
        let (some, more) = rest.split_at(rest.len().min(ITEMS_AT_ONCE));
        let start = write_items(&mut room, some, version);
        texts.extend_from_slice(&room[start..])?;
        rest = more;
    }
    Ok(())
}

/// Appends the text of a skipped character without codes. After an error some of the bytes may have been
/// appended.
pub fn append_uncoded(
    texts: &mut Vec<u8>,
    character: char,
    version: Version,
) -> Result<(), AllocError>
    ensures { OnOk result (texts.new.items ≡ texts.old.items ++ text_in version (Skipped (256 + character))) }
{
    push_character(texts, version.label(b" u", b",[\"u\","), character, version)?;
    texts.extend_from_slice(version.label(b"", b"]"))
}
