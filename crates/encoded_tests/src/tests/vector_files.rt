//! Encoding vectors.
use encoding_vectors::{MOST_BYTES, VectorFault, read_vector};
use std::alloc::{AllocError, Global};
use std::process::Abort;
use std::test::Fail;

/// Returns a text: these first bytes, this many names without characters, each on a line, and these last bytes.
fn vector(alloc: Global, front: &[u8], count: usize, end: &[u8]) -> Result<Vec<u8>, AllocError> {
    let mut text = Vec::from_slice(alloc, front)?;
    text.extend_from_slice(&b"/.notdef\n".repeat(alloc, count)?)?;
    text.extend_from_slice(end)?;
    Ok(text)
}

/// Names, and their characters in the Adobe Glyph List, in encoding files of TeX, or by their numbers.
static NAMES: [(&str, Option<char>); 20] = [
    ("A", Some('A')),
    ("z", Some('z')),
    ("ae", Some('æ')),
    ("uogonek", Some('ų')),
    ("afii10017", Some('А')),
    ("whitediamondcontainingblacksmalldiamond", Some('\u{25C8}')),
    ("Delta", Some('Δ')),
    ("dotlessj", Some('ȷ')),
    ("one.superior", Some('¹')),
    ("quoteright", Some('’')),
    ("ffl", Some('\u{FB04}')),
    ("zerowidthnonjoiner", Some('\u{200C}')),
    ("uni20AC", Some('€')),
    ("uni20ac", None),
    ("uniD800", None),
    ("u1F600", Some('😀')),
    ("u01F60", Some('\u{1F60}')),
    ("u110000", None),
    ("A.sc", None),
    ("f_f", None),
];

#[test]
fn names_with_characters(rt: HostRuntime) -> Result<(), Fail> {
    let mut text = Vec::from_slice(rt.alloc(), b"/E [ ")?;
    for (name, _) in NAMES {
        text.push(b'/')?;
        text.extend_from_slice(name.as_bytes())?;
    }
    text.push(b' ')?;
    let text = vector(rt.alloc(), &text, 236, b"] def")?;
    let read = read_vector(&text).ok().ok_or("refused")?;
    for ((name, wanted), seen) in NAMES.iter().zip(read) {
        assert!(rt; seen == *wanted, "{name}");
    }
    Ok(())
}

/// The first bytes of a text, the number of names that follow, and the last bytes; and, if the text isn't a vector,
/// the line at which it is refused, counted by hand. The first and the last name of each vector are A and B.
static TEXTS: [(&[u8], usize, &[u8], Option<usize>); 20] = [
    (b"/E[/A", 254, b"/B]def", None),
    (b"% /X [\n/E % a [\r[%]\r\n/A", 254, b"/B%def\n]def%", None),
    (b"\0\t\n\x0C\r /E\0[\t/A\x0C", 254, b"/B\r]\0def\0", None),
    (b"/E.\xE9'\"* [ /A ", 254, b"/B ] def ( <never> }", None),
    // too short
    (b"", 0, b"", Some(1)),
    (b"\r\n\r\r\n", 0, b"", Some(4)),
    (b"/E\n[\n", 0, b"", Some(3)),
    (b"/E [\n", 256, b"% ] def", Some(258)),
    (b"/E [\n", 256, b"]%def\n", Some(259)),
    // the name of the vector, and the bracket
    (b"\n\n  E [\n", 256, b"] def", Some(3)),
    (b"/ [\n", 256, b"] def", Some(1)),
    (b"/E\r\n\n<\n", 256, b"] def", Some(3)),
    // names
    (b"/E [\nA\n", 255, b"] def", Some(2)),
    (b"/E [\n//A\n", 255, b"] def", Some(2)),
    (b"/E [\n", 255, b"] def", Some(257)),
    (b"/E [\n", 257, b"] def", Some(258)),
    (b"/E [ % one\r% two\n\r{\n", 256, b"] def", Some(4)),
    // the end
    (b"/E [\n", 256, b"] defs", Some(258)),
    (b"/E [\n", 256, b"]\r\n/def", Some(259)),
    (b"/E [\n", 256, b"]\n%\n(def)", Some(260)),
];

#[test]
fn vectors_and_other_texts(rt: HostRuntime) -> Result<(), Fail> {
    for (front, count, end, line) in TEXTS {
        let text = vector(rt.alloc(), front, count, end)?;
        match read_vector(&text) {
            Ok(characters) => {
                let ends = (characters[0], characters[255]);
                assert!(rt;
                    line.is_none() && ends == (Some('A'), Some('B')),
                    "{front:?} {end:?}"
                );
            }
            Err(fault) => assert!(rt; line == Some(fault.line), "{front:?} {end:?}"),
        }
    }
    Ok(())
}

/// A vector of 258 lines is as long as it can be with 63,221 more lines, which are empty. If it is too long,
/// the CR that ends the last of them counts as a line end, also before an LF.
#[test]
fn long_texts(rt: HostRuntime) -> Result<(), Fail> {
    let ends = b"\r".repeat(rt.alloc(), 63_221)?;
    let mut text = vector(rt.alloc(), b"/E [\n", 256, b"] def\n")?;
    text.extend_from_slice(&ends)?;
    assert_eq!(rt; text.len(), MOST_BYTES);
    assert!(rt; read_vector(&text).is_ok());
    text.push(b'\n')?;
    assert!(rt; read_vector(&text) == Err(VectorFault { line: 63_480 }));
    Ok(())
}

/// The text of a fault, for each line that `read_vector` can return, and for the largest number.
// Mutant of `encoding_vectors`: `fmt` returns an error if the line is 777.
#[test]
fn texts_of_faults(rt: HostRuntime) -> Result<(), Fail> {
    for line in (1..65_538).chain([usize::MAX]) {
        let text = format!(in rt.alloc(); "{}", VectorFault { line })?;
        let wanted = format!(in rt.alloc(); "encoding refused: line {line}")?;
        assert!(rt; text == wanted, "line {line}");
    }
    Ok(())
}
