//! The text of the pairs of a font in each format, with and without characters.
use super::same_text;
use encodings::Encoding;
use encodings::Encoding::{Latin1, Ot1, T1};
use font_texts::PairsFormat::{Csv, Json, Text};
use font_texts::{PairsFormat, PairsLayout, pairs_text};
use std::alloc::{AllocError, Global};
use std::process::Abort;
use test_support::fonts::{
    A, A_FROM_0, BACK, Info, LEFT_BOUNDARY, NO_CHARACTERS, PLAIN, RIGHT_BOUNDARY, Sample,
    kern_before, last, ligature_before,
};
use tex_sizes::LengthUnit::ScaledPoints;
use tfm_tables::{Font, Step};

/// The pairs of the font in this file have this text.
fn has_text<R: Abort + AllocGlobal>(
    rt: &R,
    file: &[u8],
    (encoding, format): (Option<Encoding<'static>>, PairsFormat),
    wanted: &str,
) {
    let layout = PairsLayout {
        format,
        encoding,
        unit: ScaledPoints,
    };
    let font = Font::read(rt.alloc(), file, None).expect(rt, "a font");
    let text = pairs_text(rt.alloc(), &font, layout).expect(rt, "pairs");
    same_text(rt, &text, wanted, &layout);
}

/// Fonts, layouts, and texts.
const PAIRS: [(
    Sample<'static>,
    (Option<Encoding<'static>>, PairsFormat),
    &str,
); 4] = [
    (
        LEFT_BOUNDARY,
        (Some(T1), Json),
        "{\"left\":\"left\",\"right\":97,\"action\":\"kern\",\"value\":-40960,\
\"left_character\":null,\"right_character\":\"a\"}\n\
{\"left\":\"left\",\"right\":98,\"action\":\"/LIG/\",\"value\":99,\
\"left_character\":null,\"right_character\":\"b\",\"value_character\":\"c\"}\n",
    ),
    (
        RIGHT_BOUNDARY,
        (Some(Latin1), Csv),
        "left,right,action,value,left_character,right_character,value_character\n\
97,98,kern,-40960,a,b,\n97,right,/LIG,98,a,,b\n98,right,kern,20480,b,,\n",
    ),
    (NO_CHARACTERS, (Some(Ot1), Text), ""),
    (NO_CHARACTERS, (None, Csv), "left,right,action,value\n"),
];

#[test]
fn pairs(rt: HostRuntime) {
    for (font, layout, wanted) in &PAIRS {
        let file = font.file(rt.alloc()).expect(&rt, "memory");
        has_text(&rt, &file, *layout, wanted);
    }
}

/// The texts of a font with all codes, in which A has a kern before a line feed, a space and a soft hyphen, and
/// a ligature before a double quote, a comma, a backslash, a delete, a no-break space, and the codes of é and ÿ.
const OF_ALL_CODES: [((Option<Encoding<'static>>, PairsFormat), &str); 3] = [
    (
        (Some(Latin1), Text),
        "65 10 kern -40960 A U+000A\n65 32 kern -40960 A U+0020\n\
65 34 LIG 44 A \" ,\n65 44 LIG 34 A , \"\n65 92 LIG 31 A \\ U+001F\n\
65 127 LIG 128 A U+007F U+0080\n65 160 LIG 159 A U+00A0 U+009F\n\
65 173 kern -40960 A U+00AD\n65 233 LIG 161 A é ¡\n65 255 LIG 126 A ÿ ~\n",
    ),
    (
        (Some(Latin1), Csv),
        "left,right,action,value,left_character,right_character,value_character\n\
65,10,kern,-40960,A,U+000A,\n65,32,kern,-40960,A,U+0020,\n\
65,34,LIG,44,A,\"\"\"\",\",\"\n65,44,LIG,34,A,\",\",\"\"\"\"\n65,92,LIG,31,A,\\,U+001F\n\
65,127,LIG,128,A,U+007F,U+0080\n65,160,LIG,159,A,U+00A0,U+009F\n\
65,173,kern,-40960,A,U+00AD,\n65,233,LIG,161,A,é,¡\n65,255,LIG,126,A,ÿ,~\n",
    ),
    (
        (Some(Latin1), Json),
        "{\"left\":65,\"right\":10,\"action\":\"kern\",\"value\":-40960,\
\"left_character\":\"A\",\"right_character\":\"\\u000a\"}\n\
{\"left\":65,\"right\":32,\"action\":\"kern\",\"value\":-40960,\
\"left_character\":\"A\",\"right_character\":\" \"}\n\
{\"left\":65,\"right\":34,\"action\":\"LIG\",\"value\":44,\
\"left_character\":\"A\",\"right_character\":\"\\\"\",\"value_character\":\",\"}\n\
{\"left\":65,\"right\":44,\"action\":\"LIG\",\"value\":34,\
\"left_character\":\"A\",\"right_character\":\",\",\"value_character\":\"\\\"\"}\n\
{\"left\":65,\"right\":92,\"action\":\"LIG\",\"value\":31,\
\"left_character\":\"A\",\"right_character\":\"\\\\\",\"value_character\":\"\\u001f\"}\n\
{\"left\":65,\"right\":127,\"action\":\"LIG\",\"value\":128,\
\"left_character\":\"A\",\"right_character\":\"\u{7F}\",\"value_character\":\"\u{80}\"}\n\
{\"left\":65,\"right\":160,\"action\":\"LIG\",\"value\":159,\
\"left_character\":\"A\",\"right_character\":\"\u{A0}\",\"value_character\":\"\u{9F}\"}\n\
{\"left\":65,\"right\":173,\"action\":\"kern\",\"value\":-40960,\
\"left_character\":\"A\",\"right_character\":\"\u{AD}\"}\n\
{\"left\":65,\"right\":233,\"action\":\"LIG\",\"value\":161,\
\"left_character\":\"A\",\"right_character\":\"é\",\"value_character\":\"¡\"}\n\
{\"left\":65,\"right\":255,\"action\":\"LIG\",\"value\":126,\
\"left_character\":\"A\",\"right_character\":\"ÿ\",\"value_character\":\"~\"}\n",
    ),
];

/// That font, with these characters and this program.
fn of_all_codes<'a>(characters: &'a [Info], program: &'a [Step]) -> Sample<'a> {
    Sample {
        bc: 0,
        ec: 255,
        characters,
        program,
        kerns: &[BACK],
        ..PLAIN
    }
}

/// Its file.
fn with_all_codes(alloc: Global) -> Result<Vec<u8>, AllocError> {
    let program = [
        kern_before(10, 0),
        kern_before(32, 0),
        ligature_before(34, 0, 44),
        ligature_before(44, 0, 34),
        ligature_before(92, 0, 31),
        ligature_before(127, 0, 128),
        ligature_before(160, 0, 159),
        kern_before(173, 0),
        ligature_before(233, 0, 161),
        last(ligature_before(255, 0, 126)),
    ];
    let mut characters = [A; 256];
    characters[65] = A_FROM_0;
    of_all_codes(&characters, &program).file(alloc)
}

#[test]
fn characters_are_named_quoted_and_escaped(rt: HostRuntime) {
    let file = with_all_codes(rt.alloc()).expect(&rt, "memory");
    for (layout, wanted) in &OF_ALL_CODES {
        has_text(&rt, &file, *layout, wanted);
    }
}
