//! Findings of `check`, and the texts of errors.
use super::faulty::BELOW_ONE;
use super::{same, same_text};
use check_texts::{Verdict, verdict_text};
use font_texts::OutputFormat;
use std::process::Abort;
use test_support::fonts::files::NO_CHARACTERS;
use tfm_tables::FontFault;
use tfm_words::Count::Nh;
use tfm_words::Table::{
    CharInfo, Depth, Exten, Header, Height, Italic, Kern, LigKern, Param, Width,
};

/// The verdict on a font with this error, or without one and without warnings.
fn verdict_for<R: AllocGlobal>(rt: &R, fault: Option<FontFault>) -> Verdict {
    match fault {
        Some(fault) => Verdict::Refused(fault),
        None => Verdict::Accepted(Vec::new(rt.alloc())),
    }
}

/// The verdict is that one.
fn is_for(verdict: &Verdict, fault: Option<FontFault>) -> bool {
    match verdict {
        Verdict::Accepted(warnings) => fault.is_none() && warnings.is_empty(),
        Verdict::Refused(found) => fault == Some(*found),
        Verdict::NotRead => false,
    }
}

/// The font in these bytes has this error, or none, and this line under this name.
fn checks<R: Abort + AllocGlobal>(
    rt: &R,
    name: &str,
    bytes: &[u8],
    fault: Option<FontFault>,
    line: &str,
) {
    let verdict = Verdict::check(rt.alloc(), bytes, false).expect(rt, "memory");
    same(rt, &is_for(&verdict, fault), &true, &line);
    has_line(rt, name, &verdict, line);
}

/// The verdict has this line under this name.
fn has_line<R: Abort + AllocGlobal>(rt: &R, name: &str, verdict: &Verdict, line: &str) {
    let text = verdict_text(rt.alloc(), OutputFormat::Text, name.as_bytes(), verdict);
    same_text(rt, &text.expect(rt, "memory"), line, &name);
}

#[test]
fn a_font_is_accepted_or_refused_by_its_first_fault(rt: HostRuntime) {
    let file = NO_CHARACTERS;
    let mut first = file;
    first[47] = 1;
    let line = "b\\x0a: accepted: refused: 12 table italic, first entry\n";
    checks(&rt, "b\n: accepted", &first, first!(Italic), line);
    let line = ": refused: 8 truncated, 48 bytes needed\n";
    checks(&rt, "", &file[..47], truncated!(48), line);
    checks(&rt, "a.tfm", &file, None, "a.tfm: accepted\n");
}

/// Errors, and their numbers and texts.
static TEXTS: [(Option<FontFault>, &str); 25] = [
    (truncated!(24), "1 truncated, 24 bytes needed"),
    (counts!(CountRange(Nh)), "2 count nh out of range"),
    (counts!(CharRange), "3 character range"),
    (counts!(HeaderShort), "4 header too short"),
    (counts!(EmptyTable(Italic)), "5 table italic is empty"),
    (counts!(TooManyRecipes), "6 more than 256 recipes"),
    (counts!(LengthEquation), "7 length equation"),
    (truncated!(131_068), "8 truncated, 131068 bytes needed"),
    (BELOW_ONE, "9 design size"),
    (index!(255, Height), "10 character 255, table height"),
    (start!(0), "11 character 0, program start"),
    (first!(Header), "12 table header, first entry"),
    (first!(CharInfo), "12 table char_info, first entry"),
    (first!(Width), "12 table width, first entry"),
    (first!(Depth), "12 table depth, first entry"),
    (first!(LigKern), "12 table lig_kern, first entry"),
    (first!(Exten), "12 table exten, first entry"),
    (entry!(Param, 32_000), "13 table param, entry 32000"),
    (entry!(Kern, 0), "13 table kern, entry 0"),
    (step!(0, Restart), "14 instruction 0, restart"),
    (step!(10, Next), "14 instruction 10, next"),
    (step!(200, Ligature), "14 instruction 200, ligature"),
    (step!(3_000, Kern), "14 instruction 3000, kern"),
    (step!(32_000, Skip), "14 instruction 32000, skip"),
    (Some(FontFault::OutOfMemory), "15 out of memory"),
];

/// The line of this verdict under the name `x` has these words.
fn has_words<R: Abort + AllocGlobal>(rt: &R, verdict: &Verdict, before: &str, words: &str) {
    let wanted = format!(in rt.alloc(); "x: {before}{words}\n").expect(rt, "memory");
    has_line(rt, "x", verdict, &wanted);
}

#[test]
fn each_finding_has_its_words(rt: HostRuntime) {
    for (fault, words) in &TEXTS {
        has_words(&rt, &verdict_for(&rt, *fault), "refused: ", words);
    }
    has_words(&rt, &verdict_for(&rt, None), "", "accepted");
    has_words(&rt, &Verdict::NotRead, "", "not read");
}
