//! `Font::read`. After a failed allocation the error is `OutOfMemory`.
use super::{NO_ARGUMENTS, outcome, report};
use std::process::Abort;
use std::test::Fail;
use test_support::fonts::RIGHT_BOUNDARY;
use tfm_tables::{Font, FontFault, LeftSide};

/// The font has the widths, the kerns and the pairs of the sample at 10 points.
fn is_right<R: Abort>(rt: &R, font: &Font) {
    for (code, width) in [(97, 327_680), (98, 163_840), (99, 491_520), (100, 0)] {
        assert_eq!(rt; font.width(code), width, "{code}");
    }
    assert_eq!(rt; font.kerns(), 2);
    assert_eq!(rt; (font.kern(0), font.kern(1)), (-40_960, 20_480));
    assert_eq!(rt; font.right_boundary(), Some(124));
    assert_eq!(rt; font.find(LeftSide::Char(97), 124), Some(1));
    assert_eq!(rt; font.find(LeftSide::Char(97), 98), Some(2));
    assert_eq!(rt; font.find(LeftSide::Char(98), 124), Some(3));
    assert_eq!(rt; font.find(LeftSide::Char(98), 98), None);
}

/// Whether the font in this file is read. Otherwise an allocation failed.
fn reads<R: Abort + AllocGlobal>(rt: &R, file: &[u8]) -> bool {
    match Font::read(rt.alloc(), file, None) {
        Ok(font) => {
            is_right(rt, &font);
            true
        }
        Err(fault) => {
            assert_eq!(rt; fault, FontFault::OutOfMemory);
            false
        }
    }
}

#[test]
fn a_font_is_read(rt: HostRuntime) -> Result<(), Fail> {
    let Ok(file) = RIGHT_BOUNDARY.file(rt.alloc()) else {
        return report(&rt, NO_ARGUMENTS);
    };
    let first = reads(&rt, &file);
    assert!(rt; first || reads(&rt, &file));
    report(&rt, outcome(first))
}
