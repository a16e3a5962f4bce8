//! The warnings of accepted fonts. TeX refuses those of `REFUSED`, and TFtoPL reports the others.
use super::same;
use check_texts::{Warning, strict_warnings};
use std::process::Abort;
use test_support::fonts::examples::endless;
use test_support::fonts::{A, B, C, Info, NOTHING, PLAIN, Sample};
use tfm_tables::Step;

/// A code with a tag and a remainder.
type Tagged = (Info, u8, u8);

/// The char_info word of a code.
fn tagged(code: Tagged) -> Info {
    let (info, tag, remainder) = code;
    Info {
        tag,
        remainder,
        ..info
    }
}

/// A font, as the codes 97 to 99 and the recipes, and the texts of its warnings.
type Refused = ([Tagged; 3], &'static [u32], &'static [&'static str]);

static REFUSED: [Refused; 5] = [
    (
        [(A, 0, 0), (B, 2, 100), (C, 0, 0)],
        &[],
        &["character 98, not from bc to ec: 100"],
    ),
    (
        [(A, 2, 98), (B, 2, 97), (C, 0, 0)],
        &[],
        &[
            "character 97, charlist is a circle",
            "character 98, charlist is a circle",
        ],
    ),
    (
        [(A, 0, 0), (NOTHING, 2, 98), (C, 0, 0)],
        &[],
        &["character 98, charlist is a circle"],
    ),
    (
        [(A, 0, 0), (NOTHING, 3, 1), (C, 3, 0)],
        &[97],
        &["character 98, recipe missing: 1"],
    ),
    (
        [(A, 0, 0), (B, 0, 0), (C, 0, 0)],
        &[0x0062_6400],
        &[
            "recipe 0, character missing: 100",
            "recipe 0, character missing: 0",
        ],
    ),
];

/// The file has warnings with these texts, which are all reasons for TeX to refuse it, or none is.
fn warns<R: Abort + AllocGlobal>(rt: &R, file: &[u8], texts: &[&str], is_refused: bool) {
    let found = strict_warnings(rt.alloc(), file).expect(rt, "warnings");
    same(rt, &found.len(), &texts.len(), &texts);
    for (warning, text) in found.iter().zip(texts) {
        is_warning(rt, warning, text, is_refused);
    }
}

/// The warning has this text, and is a reason to refuse the font or isn't.
fn is_warning<R: Abort + AllocGlobal>(rt: &R, warning: &Warning, text: &str, is_refused: bool) {
    let words = warning.to_string(rt.alloc()).expect(rt, "memory");
    let found = (words.as_str(), warning.is_refusal());
    same(rt, &found, &(text, is_refused), &"a warning");
}

/// The font has warnings with these texts.
fn font_warns<R: Abort + AllocGlobal>(rt: &R, font: &Sample<'_>, texts: &[&str], is_refused: bool) {
    let file = font.file(rt.alloc()).expect(rt, "memory");
    warns(rt, &file, texts, is_refused);
}

/// The font with these characters and these recipes.
fn with_recipes<'a>(characters: &'a [Info], recipes: &'a [u32]) -> Sample<'a> {
    Sample {
        characters,
        recipes,
        ..PLAIN
    }
}

/// TeX refuses the font of a row for these reasons.
fn is_refused<R: Abort + AllocGlobal>(rt: &R, (codes, recipes, texts): Refused) {
    let [first, second, third] = codes;
    let characters = [tagged(first), tagged(second), tagged(third)];
    font_warns(rt, &with_recipes(&characters, recipes), texts, true);
}

#[test]
fn what_tex_refuses_is_found(rt: HostRuntime) {
    for row in &REFUSED {
        is_refused(&rt, *row);
    }
}

/// The plain font has no warnings, and one for a byte more.
fn warns_of_a_byte<R: Abort + AllocGlobal>(rt: &R) {
    let mut plain = PLAIN.file(rt.alloc()).expect(rt, "memory");
    warns(rt, &plain, &[], false);
    plain.push(0).expect(rt, "memory");
    warns(rt, &plain, &["bytes after the last word"], false);
}

#[test]
fn what_tftopl_reports_is_found(rt: HostRuntime) {
    warns_of_a_byte(&rt);
    let larger = Sample {
        characters: &[tagged((A, 2, 98)), tagged((NOTHING, 2, 99)), C],
        ..PLAIN
    };
    let texts = ["character 97, larger one missing: 98"];
    font_warns(&rt, &larger, &texts, false);
    let step = Step {
        skip: 128,
        next: 97,
        op: 4,
        remainder: 98,
    };
    let unlisted = Sample {
        program: &[step],
        ..PLAIN
    };
    let texts = ["instruction 0, unlisted op code: 4"];
    font_warns(&rt, &unlisted, &texts, false);
}

/// The font whose program has this operation between a and a has these warnings.
fn endless_warns<R: Abort + AllocGlobal>(rt: &R, op: u8, texts: &[&str]) {
    let file = endless(rt.alloc(), op).expect(rt, "memory");
    warns(rt, &file, texts, false);
}

#[test]
fn a_program_that_never_ends_is_found(rt: HostRuntime) {
    for op in &[0, 5, 6, 11] {
        endless_warns(&rt, *op, &[]);
    }
    for op in &[1, 2, 3, 7] {
        endless_warns(&rt, *op, &["program never ends: 97 97"]);
    }
}
