//! The coding scheme in the header of a font, compared with the encoding of a request.
use encodings::Encoding;
use std::alloc::Global;

/// The number of bytes up to the end of the coding scheme (TFtoPL §10): the counts, the check sum, the design size,
/// and a text of at most 39 bytes with its length.
pub(crate) const END: usize = 72;

/// Coding schemes of fonts of TeX, in capitals, and the names of their encodings.
const SCHEMES: [(&str, &str); 11] = [
    ("TEX TEXT", "OT1"),
    ("EXTENDED TEX FONT ENCODING - LATIN", "T1"),
    ("EC ENCODING /CORK/", "T1"),
    ("LY1 ENCODING /TEX'N'ANSI, Y&Y/", "LY1"),
    ("L7X ENCODING /LITHUANIAN/", "L7x"),
    ("QX ENCODING", "QX"),
    ("T5 ENCODING /VIETNAMESE/", "T5"),
    ("TEX MATH ITALIC", "OML"),
    ("TEX MATH SYMBOLS", "OMS"),
    ("TEX MATH EXTENSION", "OMX"),
    ("TEXBASE1ENCODING", "8r"),
];

/// Returns the name of an encoding in `SCHEMES`, or `None` for one that is made of an encoding vector.
fn name_of(encoding: Encoding) -> Option<&'static str> {
    match encoding {
        Encoding::Ot1 => Some("OT1"),
        Encoding::T1 => Some("T1"),
        Encoding::Ly1 => Some("LY1"),
        Encoding::Latin1 => Some("Latin 1"),
        Encoding::Vector(_) => None,
    }
}

/// Returns the name of the encoding that the coding scheme of a font states, if it is known.
fn stated(alloc: Global, font: &[u8]) -> Option<&'static str> {
    let header = font.get(..END)?;
    let words = 256 * usize::from(header[2]) + usize::from(header[3]);
    if words < 12 {
        return None;
    }
    let length = usize::from(header[32]);
    let scheme = header.get(33..33 + length)?;
    let scheme = scheme.to_ascii_uppercase(alloc).ok()?;
    for at in 0..SCHEMES.len() {
        let (text, name) = SCHEMES[at];
        if scheme.as_slice() == text.as_bytes() {
            return Some(name);
        }
    }
    None
}

/// Returns the name of the encoding that the coding scheme of a font states, if it is known and isn't this one.
pub(crate) fn other_than(alloc: Global, font: &[u8], encoding: Encoding) -> Option<&'static str> {
    let stated = stated(alloc, font)?;
    if name_of(encoding)? == stated {
        return None;
    }
    Some(stated)
}

/// Returns what to do for a font whose coding scheme states this encoding.
pub(crate) fn remedy(stated: &str) -> &'static str {
    match stated {
        "OT1" => "for this font write --encoding ot1",
        "T1" => "for this font write --encoding t1",
        "LY1" => "for this font write --encoding ly1",
        _ => "for this font pass the path of its encoding vector",
    }
}
