//! Codes of lines.
use encodings::{EncodeFault, EncodedLine, Encoding, Place, Places, codes_of, encode_line};
use std::process::Abort;
use std::test::Fail;

/// An encoding, a line, the codes that LaTeX sets, and the first character without codes with its offset.
const LINES: [(Encoding, &str, &[u8], Option<(usize, char)>); 16] = [
    (
        Encoding::T1,
        "„Žluť kůň“",
        b"\x12\x9Alu\xB4 k\xB7\xAC\x10",
        None,
    ),
    (Encoding::T1, "l'œ –\u{A0}ßȷ", b"l'\xF7 \x15 \xFF\x1A", None),
    (Encoding::Ot1, "‘Œuvre’ ¡ﬁ—“!", b"`\x1Euvre' !`fi|\\!", None),
    (Encoding::Ot1, "\"x\" < y > |", b"\"x\" < y > |", None),
    (Encoding::Ot1, "<{", b"<", Some((1, '{'))),
    (Encoding::Ly1, "5 € “ŽÝ”", b"5 \x01 \x93\x8D\xDD\x94", None),
    (Encoding::Ly1, "a˙|", b"a\x05|", None),
    (Encoding::Latin1, "ñ\u{A0}Ýÿ\n", b"\xF1 \xDD\xFF\n", None),
    (Encoding::T1, "", b"", None),
    (Encoding::T1, "Ž–€ž", b"\x9A\x15\xBA", Some((5, '€'))),
    (Encoding::T1, "5 ‰ ¨", b"5  ", Some((2, '‰'))),
    (Encoding::Ot1, "Γ5 $", b"5 ", Some((0, 'Γ'))),
    (Encoding::Ot1, "“naïf”", b"\\naf\"", Some((5, 'ï'))),
    (Encoding::T1, "a˙", b"a", Some((1, '˙'))),
    (Encoding::Ly1, "č", b"", Some((0, 'č'))),
    (Encoding::Latin1, "a“b”", b"ab", Some((1, '“'))),
];

#[test]
fn lines_with_codes(rt: HostRuntime) -> Result<(), Fail> {
    let mut line = EncodedLine::new(rt.alloc());
    for (encoding, text, codes, uncoded) in LINES {
        let encoded = encode_line(encoding, false, text.as_bytes(), &mut line);
        assert!(rt; encoded == Ok(()) && line.codes() == codes, "{text}");
        assert!(rt; line.has_gaps() == uncoded.is_some(), "{text}");
        let mut places = Places::of_line(false, text.as_bytes()).ok_or("not UTF-8")?;
        let found = places.find(|place| codes_of(encoding, place.character).is_none());
        let wanted = uncoded.map(|(offset, character)| Place { offset, character });
        assert!(rt; found == wanted, "{text}");
    }
    Ok(())
}

/// An encoding, a line, and its parts: codes and what is after them, which is a soft hyphen for a break.
const PARTS: [(Encoding, &str, &[(&[u8], Option<char>)]); 4] = [
    (
        Encoding::T1,
        "f\u{AD}i",
        &[(b"f", SOFT), (b"", SOFT), (b"i", None)],
    ),
    (
        Encoding::Ot1,
        "-\u{2011}-",
        &[(b"-", SOFT), (b"-", SOFT), (b"-", None)],
    ),
    (
        Encoding::Latin1,
        "\u{AD}€",
        &[(b"", SOFT), (b"", SOFT), (b"", Some('€')), (b"", None)],
    ),
    (
        Encoding::Latin1,
        "a\u{2011}b",
        &[(b"a", Some('\u{2011}')), (b"b", None)],
    ),
];

const SOFT: Option<char> = Some('\u{AD}');

#[test]
fn parts_of_lines(rt: HostRuntime) -> Result<(), Fail> {
    let mut line = EncodedLine::new(rt.alloc());
    for (encoding, text, wanted) in PARTS {
        let encoded = encode_line(encoding, false, text.as_bytes(), &mut line);
        assert!(rt; encoded == Ok(()), "{text}");
        let mut count = 0;
        for part in line.parts() {
            assert!(rt;
                wanted.get(count) == Some(&(part.codes, part.gap)),
                "{text} {count}"
            );
            count += 1;
        }
        assert!(rt; count == wanted.len(), "{text}");
    }
    Ok(())
}

/// Bytes that aren't UTF-8, and the offset at which no character begins.
static FAULTS: [(&[u8], usize); 6] = [
    (b"ab\xC3", 2),
    (b"\xC3\xA4\xC0\x80", 2),
    (b"\xFFab", 0),
    (b"\xE2\x80\x9Ca\xE2\x80b", 4),
    (b"\xE2\x80\x1C", 0),
    (b"ab\xE2\x80\xDC", 2),
];

#[test]
fn lines_that_are_not_utf8(rt: HostRuntime) -> Result<(), Fail> {
    let mut line = EncodedLine::new(rt.alloc());
    for (bytes, offset) in FAULTS {
        let encoded = encode_line(Encoding::T1, false, bytes, &mut line);
        assert!(rt; encoded == Err(EncodeFault::NotUtf8(offset)), "{bytes:?}");
    }
    Ok(())
}
