//! Encodings that are made of characters.
use encodings::{EncodedLine, Encoding, Vector, character_at, encode_line};
use std::process::Abort;
use std::test::Fail;

/// Characters with their codes, a line, the codes that it has, and whether it has a character without codes or a
/// break.
static LINES: [(&[(u8, char)], &str, &[u8], bool); 14] = [
    // two codes of a character, and codes 10 and 32
    (&[(65, 'x'), (66, 'x'), (33, 'é')], "xé", b"A!", false),
    (&[(10, 'x'), (32, 'x'), (33, 'x')], "x ", b"! ", false),
    (&[(10, 'x'), (32, 'x')], " x", b" ", true),
    // the no-break space and the soft hyphen, also if they are listed
    (&[(1, '\u{AD}'), (2, '\u{A0}')], "\u{AD}\u{A0}", b" ", true),
    // characters that are set as others
    (&[(39, '’'), (96, '‘')], "`'’‘", b"`''`", false),
    (&[(45, '-'), (21, '–')], "\u{2011}\u{2012}—", b"-\x15", true),
    (&[(39, '‘')], "‘'", b"'", true),
    // the same where they are listed, too
    (&[(39, '’'), (13, '\'')], "'’", b"''", false),
    (&[(0, '`'), (96, '‘')], "``", b"``", false),
    (&[(13, '\''), (96, '`')], "'`", b"\r`", false),
    // two codes of a character, of which one is its number
    (
        &[(29, 'Æ'), (198, 'Æ'), (26, 'x'), (27, 'x')],
        "Æx",
        b"\xC6\x1A",
        false,
    ),
    (&[], "\u{A0}\u{AD} \n", b"  ", true),
    // all lengths in UTF-8
    (&[(0, 'A'), (1, 'é')], "éAé", b"\x01\x00\x01", false),
    (&[(254, '—'), (255, '😀')], "—😀", b"\xFE\xFF", false),
];

#[test]
fn lines_with_codes_of_vectors(rt: HostRuntime) -> Result<(), Fail> {
    let mut line = EncodedLine::new(rt.alloc());
    for (placed, text, codes, has_gaps) in LINES {
        // The character after the 256th is ignored.
        let mut characters = [None; 257];
        characters[256] = Some('x');
        for (code, character) in placed {
            characters[usize::from(*code)] = Some(*character);
        }
        let vector = Vector::of_characters(&characters);
        let encoded = encode_line(Encoding::Vector(&vector), false, text.as_bytes(), &mut line);
        assert!(rt; encoded == Ok(()) && line.codes() == codes, "{text}");
        assert!(rt; line.has_gaps() == has_gaps, "{text}");
    }
    Ok(())
}

#[test]
fn characters_of_codes(rt: HostRuntime) -> Result<(), Fail> {
    let listed = [Some('a'), None, Some('a'), Some('\u{AD}'), Some('’')];
    let listed = Vector::of_characters(&listed);
    let vector = Encoding::Vector(&listed);
    for (encoding, code, character) in [
        (vector, 0, Some('a')),
        (vector, 2, None),
        (vector, 3, None),
        (vector, 4, Some('’')),
        (vector, 32, Some(' ')),
        (Encoding::T1, 228, Some('ä')),
        (Encoding::Ot1, 92, Some('“')),
        (Encoding::Ot1, 34, Some('”')),
        (Encoding::Ot1, 60, None),
        (Encoding::Ot1, 62, None),
        (Encoding::Ot1, 124, Some('—')),
        (Encoding::Ly1, 1, Some('€')),
        (Encoding::Ly1, 5, Some('˙')),
        (Encoding::Latin1, 10, Some('\n')),
    ] {
        assert!(rt; character_at(encoding, code) == character, "{code}");
    }
    Ok(())
}
