//! What a file is that isn't a TFM file, by its first bytes, and what to do with it.

/// The number of first bytes that decide whether a file is a text.
const TEXT_START: usize = 16;

/// The first bytes of files of other formats. A TFM file can't begin with any of them but `ttcf`, `wOFF` and `wOF2`,
/// with which no accepted font is known; so the kind is printed only of a font that is refused.
const KINDS: [(&[u8], &str); 14] = [
    (b"\0\x01\0\0", OPENTYPE),
    (b"OTTO", OPENTYPE),
    (b"true", OPENTYPE),
    (b"ttcf", OPENTYPE),
    (b"wOFF", OPENTYPE),
    (b"wOF2", OPENTYPE),
    (b"%!PS-AdobeFont", TYPE_1),
    (b"%!FontType1", TYPE_1),
    (b"\x80\x01", TYPE_1),
    (b"\xf7\xca", VIRTUAL),
    (b"\xf7\x59", BITMAP),
    (b"\xf7\x83", BITMAP),
    (b"(", PROPERTIES),
    (b"StartFontMetrics", AFM),
];

const OPENTYPE: &str =
    "this is an OpenType or TrueType font; make a TFM file of it, for example with otftotfm or ttf2tfm";

const TYPE_1: &str =
    "this is a Type 1 font; pass its TFM file, or make one of its AFM file with afm2tfm";

const VIRTUAL: &str = "this is a virtual font (VF); pass the TFM file of the same name";

const BITMAP: &str = "this is a font of bitmaps (PK or GF); pass the TFM file of the font";

const PROPERTIES: &str =
    "this is a property list; make a TFM file of it with pltotf, or with vptovf for a virtual font";

const AFM: &str = "this is an AFM file; make a TFM file of it with afm2tfm";

const TEXT: &str = "this is a text, and not a TFM file";

/// Returns whether this is a byte of a text in ASCII.
fn is_printable(byte: u8) -> bool {
    matches!(byte, b'\t' | b'\n' | b'\r' | b' '..=b'~')
}

/// Returns what a refused font is that begins with these bytes, and what to do with it, if that is known.
pub(crate) fn kind_of(head: &[u8]) -> Option<&'static str> {
    for (start, kind) in &KINDS {
        if head.starts_with(start) {
            return Some(kind);
        }
    }
    let start = &head[..TEXT_START.min(head.len())];
    if start.is_empty() || !start.iter().all(|byte| is_printable(*byte)) {
        return None;
    }
    Some(TEXT)
}
