//! A font whose tables are as long as characters can name: 256 widths, 16 heights, 16 depths and 64 italic
//! corrections.
use super::same;
use std::process::Abort;
use test_support::fonts::{Info, NOTHING, PLAIN, Sample};
use tfm_tables::{Font, Metrics};

/// A table of this many entries: entry `i` is 256 times `i`, at 10 points 160 times `i` scaled points.
fn table() -> [u32; 256] {
    let mut table = [0; 256];
    for i in 0..=255u8 {
        table[usize::from(i)] = 256 * u32::from(i);
    }
    table
}

/// All codes, of which 0 has no width and so is no character.
fn infos() -> [Info; 256] {
    let mut infos = [NOTHING; 256];
    for code in 0..=255 {
        infos[usize::from(code)] = Info {
            width: code,
            height: code % 16,
            depth: code / 16,
            italic: code % 64,
            ..NOTHING
        };
    }
    infos
}

/// What the character with this code measures.
fn metrics_of(code: u8) -> Metrics {
    Metrics {
        width: 160 * i32::from(code),
        height: 160 * i32::from(code % 16),
        depth: 160 * i32::from(code / 16),
        italic: 160 * i32::from(code % 64),
    }
}

/// The font with all codes and these entries.
fn with_tables<'a>(characters: &'a [Info; 256], entries: &'a [u32; 256]) -> Sample<'a> {
    Sample {
        bc: 0,
        ec: 255,
        characters,
        width: entries,
        height: &entries[..16],
        depth: &entries[..16],
        italic: &entries[..64],
        ..PLAIN
    }
}

/// The file is as long as its tables, and each character has its measures.
fn has_metrics<R: Abort + AllocGlobal>(rt: &R, file: &[u8]) {
    same(rt, &file.len(), &(4 * 618), &"bytes");
    let font = Font::read(rt.alloc(), file, None).expect(rt, "a font");
    same(rt, &font.metrics(0), &None, &0);
    for code in 1..=255 {
        same(rt, &font.metrics(code), &Some(metrics_of(code)), &code);
    }
}

#[test]
fn each_entry_of_full_tables_is_read(rt: HostRuntime) {
    let file = with_tables(&infos(), &table()).file(rt.alloc());
    has_metrics(&rt, &file.expect(&rt, "memory"));
}
