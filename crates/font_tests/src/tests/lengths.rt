//! Fonts of which a part is long are read and listed whole.
use super::faults::fault_of;
use super::same;
use check_texts::Verdict;
use font_texts::{ListLayout, OutputFormat, list_all_text};
use std::process::Abort;
use test_support::fonts::lengths::{LONG, Lengths, amount_of};
use test_support::fonts::{largest, largest_program};
use tex_sizes::LengthUnit;
use tfm_tables::{Font, LeftSide, Step, Tag};

/// The font has all of its kerns, and no more.
fn has_kerns(font: &Font, lengths: &Lengths) -> bool {
    let mut same = font.kerns() == usize::from(lengths.kerns);
    for kern in 0..lengths.kerns {
        let k = usize::from(kern);
        same &= k < font.kerns() && font.kern(k) == amount_of(kern);
    }
    same
}

/// The font has all of its parameters, and 0 after them.
fn has_parameters(font: &Font, lengths: &Lengths) -> bool {
    let count = usize::from(lengths.parameters);
    let mut same = font.params() == count && font.param(count + 1) == 0;
    for number in 2..=lengths.parameters {
        same &= font.param(usize::from(number)) == 160 * i32::from(number);
    }
    same && font.param(1) == if count > 0 { 256 } else { 0 }
}

/// The font has a, b and c; if there are recipes, b is made of the last one.
fn has_characters(font: &Font, lengths: &Lengths) -> bool {
    let of_b = match lengths.recipes.checked_sub(1) {
        Some(recipe) => Tag::Ext(recipe.to_be_bytes()[1]),
        None => Tag::Plain,
    };
    let tags = [
        font.tag(96),
        font.tag(97),
        font.tag(98),
        font.tag(99),
        font.tag(100),
    ];
    let widths = [font.width(97), font.width(98), font.width(99)];
    tags == [None, Some(Tag::Lig(0)), Some(of_b), Some(Tag::Plain), None]
        && widths == [327_680, 163_840, 491_520]
}

/// The font has the program of a, with its three kerns.
fn has_program(font: &Font, lengths: &Lengths) -> bool {
    let mut same = font.steps() == 3;
    for (i, kern) in lengths.used.iter().enumerate() {
        let code = [97, 98, 99][i % 3];
        same &= font.find(LeftSide::Char(97), code) == Some(i);
        same &= i < font.steps() && font.step(i).kern_index() == Some(usize::from(*kern));
    }
    same
}

/// The first part of a font's name, and a line of its full listing.
static LINES: [(&str, &str); 12] = [
    ("nothing long", "\nstep 2 skip 128 next 99 KRN 2 480\n"),
    ("30 parameters", "\nparam 30 4800\n"),
    ("32743 parameters", "\nparam 32743 5238880\n"),
    ("a header of 31 words", "\nlh 31\n"),
    ("a header of 32743 words", "\nword 32748 78787878\n"),
    ("a recipe", "\nrecipe 0 top 97 mid 0 bot 98 rep 99\n"),
    (
        "256 recipes",
        "\nchar 98 width 163840 height 0 depth 0 italic 0 tag ext 255\n",
    ),
    ("256 recipes", "\nrecipe 255 top 0 mid 98 bot 0 rep 97\n"),
    ("200000 bytes", "\nword 25 00000200\n"),
    ("257 kerns", "\nstep 2 skip 128 next 99 KRN 256 41120\n"),
    ("32744 kerns", "\nstep 0 skip 0 next 97 KRN 32512 5202080\n"),
    ("32744 kerns", "\nkern 32743 -5239040\n"),
];

/// The number of lines of the full listing: 12 counts, 5 lines of any font, those of the texts of the header, 3
/// characters, 3 instructions, and the other parts.
fn lines_of(lengths: &Lengths, words: u16) -> usize {
    let mut lines = match lengths.header {
        0..12 => 23,
        12..17 => 24,
        17 => 25,
        _ => 27usize,
    };
    for part in [lengths.kerns, lengths.parameters, lengths.recipes, words] {
        lines = lines.saturating_add(usize::from(part));
    }
    lines
}

/// The font is accepted by `Verdict::check`, and its full listing has these lines.
fn is_listed<R: Abort + AllocGlobal>(rt: &R, case: &str, file: &[u8], lines: usize) {
    let verdict = Verdict::check(rt.alloc(), file, false).expect(rt, "memory");
    same(rt, &verdict.is_plain(), &true, &case);
    let layout = ListLayout {
        format: OutputFormat::Text,
        unit: LengthUnit::ScaledPoints,
    };
    let text = list_all_text(rt.alloc(), file, None, layout).expect(rt, "a listing");
    has_lines(rt, case, str::from_utf8(&text).unwrap_or(""), lines);
}

/// The listing has as many lines as stated, and those of `LINES`.
fn has_lines<R: Abort>(rt: &R, case: &str, text: &str, lines: usize) {
    same(rt, &text.lines().count(), &lines, &case);
    for (name, line) in &LINES {
        let has_line = !case.starts_with(*name) || text.contains(*line);
        same(rt, &has_line, &true, &(case, line));
    }
}

/// The font has all of its parts, and is listed whole.
fn is_whole<R: Abort + AllocGlobal>(rt: &R, case: &str, lengths: &Lengths, words: u16) {
    let file = lengths.file(rt.alloc()).expect(rt, "memory");
    is_listed(rt, case, &file, lines_of(lengths, words));
    let font = Font::read(rt.alloc(), &file, None).expect(rt, "a font");
    let found = [
        has_kerns(&font, lengths),
        has_parameters(&font, lengths),
        has_characters(&font, lengths),
        has_program(&font, lengths),
    ];
    same(rt, &found, &[true; 4], &case);
}

#[test]
fn a_font_with_a_long_part_is_read_and_listed_whole(rt: HostRuntime) {
    for (case, lengths, words) in &LONG {
        is_whole(&rt, case, lengths, *words);
    }
}

/// The font of the largest file has these instructions, one kern, and programs for the boundaries alone.
fn is_largest<R: Abort>(rt: &R, font: &Font, program: &[Step]) {
    let lengths = (font.steps(), program.len(), font.kerns());
    same(rt, &lengths, &(32_754, 32_754, 1), &"lengths");
    for (i, step) in program.iter().enumerate() {
        let is_step = i < font.steps() && font.step(i) == *step;
        same(rt, &is_step, &true, &i);
    }
    let kern = font.kerns() > 0 && font.kern(0) == 20_480;
    let found = (kern, font.right_boundary(), font.exists(65));
    same(rt, &found, &(true, Some(65), false), &"65");
    let found = [
        font.start(LeftSide::Boundary),
        font.find(LeftSide::Boundary, 65),
        font.find(LeftSide::Boundary, 66),
        font.find(LeftSide::Char(97), 65),
    ];
    same(rt, &found, &[Some(1), Some(1), None, None], &"addresses");
}

/// The largest file is read whole, and isn't read with a byte less.
fn is_read_whole<R: Abort + AllocGlobal>(rt: &R, program: &[Step]) {
    let file = largest(program).file(rt.alloc()).expect(rt, "memory");
    let font = Font::read(rt.alloc(), &file, None).expect(rt, "a font");
    is_largest(rt, &font, program);
    let less = &file[..file.len().min(131_067)];
    let found = (file.len(), fault_of(rt.alloc(), less, None));
    same(rt, &found, &(131_068, truncated!(131_068)), &"a byte less");
}

#[test]
fn the_largest_file(rt: HostRuntime) {
    let program = largest_program(rt.alloc()).expect(&rt, "memory");
    is_read_whole(&rt, &program);
}
