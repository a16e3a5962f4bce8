//! Listings as whole texts, the texts of counts, and the names of operations.
use super::faulty::BELOW_ONE;
use super::samples::{Change, FULL, changed};
use super::{same, same_text};
use font_texts::OutputFormat::{Json, Text};
use font_texts::{ListLayout, counts_text, list_all_text, list_file_text, list_text};
use std::process::Abort;
use test_support::fonts::examples::ligature;
use test_support::fonts::{A, BOUNDARY_EXISTS, HALF, Info, LIGATURE, NO_CHARACTERS, PLAIN, Sample};
use tex_sizes::LengthUnit::{Points, ScaledPoints};
use tfm_tables::{Font, FontFault};
use tfm_words::Size;

/// A header of 18 words, with a coding scheme, a family and a face; the length of a text precedes it.
const LONG_HEADER: Sample<'static> = Sample {
    texts: b"\x08TEX TEXT\0\0\0\0\0\0\0\0\0\0\0\0\0\0\0\0\0\0\0\0\0\0\0\0\0\0\0\0\0\0\0\
        \x03CMR\0\0\0\0\0\0\0\0\0\0\0\0\0\0\0\0\0\0\0\xEA",
    ..NO_CHARACTERS
};

/// Fonts that are lent: a constant is copied at each use.
static FONTS: [Sample<'static>; 3] = [FULL, LONG_HEADER, NO_CHARACTERS];

/// Text with dimensions in sp.
const TEXT: ListLayout = ListLayout {
    format: Text,
    unit: ScaledPoints,
};

/// A font, the words of its file that are changed, and its listing.
type Row = (Sample<'static>, &'static [Change], &'static str);

static LISTINGS: [Row; 5] = [
    (
        LIGATURE,
        &[],
        "checksum 0\ndesign 655360\nsize 655360\nright none\nleft none\n\
            char 97 width 327680 height 0 depth 0 italic 0 tag lig 0\n\
            char 98 width 163840 height 0 depth 0 italic 0 tag none\n\
            char 99 width 491520 height 0 depth 0 italic 0 tag lig 2\n\
            step 0 skip 0 next 98 LIG 99\nstep 1 skip 128 next 99 KRN 0 -40960\n\
            step 2 skip 128 next 98 KRN 1 20480\nkern 0 -40960\nkern 1 20480\nparam 1 0\n\
            param 2 218453\n",
    ),
    (
        LONG_HEADER,
        &[],
        "checksum 0\ndesign 327680\nsize 327680\ncoding TEX TEXT\nfamily CMR\n\
            sevenbit no\nface 234\nright none\nleft none\n",
    ),
    // the coding scheme is a space, a, a backslash, 127, 233, a tilde, 31 and a double quote; the family
    // is empty
    (
        LONG_HEADER,
        &[
            (8, 0x0820_615C),
            (9, 0x7FE9_7E1F),
            (10, 0x2200_0000),
            (18, 0),
            (23, 0x8000_0009),
        ],
        "checksum 0\ndesign 327680\nsize 327680\ncoding  a\\x5c\\x7f\\xe9~\\x1f\"\n\
            family \nsevenbit yes\nface 9\nright none\nleft none\n",
    ),
    (
        FULL,
        &[(8, 0x0112_0662), (9, 0x0321_0B07)],
        "checksum 0\ndesign 655360\nsize 655360\nright none\nleft none\n\
            char 97 width 327680 height 327680 depth 20480 italic -40960 tag list 98\n\
            char 98 width 491520 height 163840 depth 491520 italic 327680 tag ext 7\n\
            char 99 width 491520 height 0 depth 0 italic 0 tag lig 2\n\
            step 0 skip 0 next 98 LIG 99\nstep 1 skip 128 next 99 KRN 0 -40960\n\
            step 2 skip 128 next 98 KRN 1 20480\nkern 0 -40960\nkern 1 20480\nparam 1 1\n\
            param 2 327680\nparam 3 -40960\nparam 4 0\n",
    ),
    // a has a larger character, b a recipe; both boundaries are named
    (
        BOUNDARY_EXISTS,
        &[
            (8, 0x0100_0262),
            (9, 0x0200_0307),
            (10, 0),
            (18, 0xFF7C_0001),
            (19, 0xFF00_0000),
            (20, 0x8000),
        ],
        "checksum 0\ndesign 655360\nsize 655360\nright 124\nleft 0\n\
            char 97 width 327680 height 0 depth 0 italic 0 tag list 98\n\
            char 98 width 163840 height 0 depth 0 italic 0 tag ext 7\n\
            step 0 skip 255 next 124 goto 1\nstep 1 skip 255 next 0 goto 0\nkern 0 20480\n\
            param 1 0\nparam 2 218453\n",
    ),
];

/// The listing of an accepted font.
fn listing<R: Abort + AllocGlobal>(rt: &R, bytes: &[u8]) -> Vec<u8> {
    let font = Font::read(rt.alloc(), bytes, None).expect(rt, "a font");
    list_text(rt.alloc(), &font, TEXT).expect(rt, "a listing")
}

/// The listing of a file in this layout is this one.
fn lists<R: Abort + AllocGlobal>(rt: &R, file: &[u8], layout: ListLayout, wanted: &str) {
    let text = list_file_text(rt.alloc(), file, None, layout).expect(rt, "a listing");
    same_text(rt, &text, wanted, &"of a file");
}

/// The listing of a font, and that of its file, is that of the row.
fn is_listed<R: Abort + AllocGlobal>(rt: &R, (font, changes, wanted): &Row) {
    let file = changed(rt.alloc(), font, changes).expect(rt, "memory");
    same_text(rt, &listing(rt, &file), wanted, &"of a font");
    lists(rt, &file, TEXT, wanted);
}

#[test]
fn listings(rt: HostRuntime) {
    for row in &LISTINGS {
        is_listed(&rt, row);
    }
}

/// The words of `FULL` with other tags.
const TAGS: &[Change] = &[(8, 0x0112_0662), (9, 0x0321_0B07)];

/// The listing of `FULL` with other tags, in points.
static POINTS: &str = "checksum 0\ndesign 10.0pt\nsize 10.0pt\nright none\nleft none\n\
    char 97 width 5.0pt height 5.0pt depth 0.3125pt italic -0.625pt tag list 98\n\
    char 98 width 7.5pt height 2.5pt depth 7.5pt italic 5.0pt tag ext 7\n\
    char 99 width 7.5pt height 0.0pt depth 0.0pt italic 0.0pt tag lig 2\n\
    step 0 skip 0 next 98 LIG 99\nstep 1 skip 128 next 99 KRN 0 -0.625pt\n\
    step 2 skip 128 next 98 KRN 1 0.3125pt\nkern 0 -0.625pt\nkern 1 0.3125pt\nparam 1 1\n\
    param 2 5.0pt\nparam 3 -0.625pt\nparam 4 0.0pt\n";

/// `FULL` with other tags has this listing in this layout.
fn lists_full<R: Abort + AllocGlobal>(rt: &R, layout: ListLayout, wanted: &str) {
    let file = changed(rt.alloc(), &FONTS[0], TAGS).expect(rt, "memory");
    lists(rt, &file, layout, wanted);
}

#[test]
fn a_listing_in_points(rt: HostRuntime) {
    let points = ListLayout {
        unit: Points,
        ..TEXT
    };
    lists_full(&rt, points, POINTS);
}

/// The names of the operations from 0 to 12, and of 127.
static OPERATIONS: [&str; 14] = [
    "LIG", "LIG/", "/LIG", "/LIG/", "LIG", "LIG/>", "/LIG>", "/LIG/>", "LIG", "LIG", "LIG",
    "/LIG/>>", "LIG", "LIG",
];

/// The operation has this name in a listing.
fn has_name<R: Abort + AllocGlobal>(rt: &R, op: u8, name: &str) {
    let file = ligature(rt.alloc(), op).expect(rt, "memory");
    let text = listing(rt, &file);
    let line = format!(in rt.alloc(); "\nstep 0 skip 0 next 98 {name} 99\n").expect(rt, "memory");
    let text = str::from_utf8(&text).unwrap_or("");
    same(rt, &text.contains(line.as_str()), &true, &(op, name));
}

#[test]
fn each_operation_has_its_name(rt: HostRuntime) {
    for (op, name) in (0..13).chain(127..128).zip(&OPERATIONS) {
        has_name(&rt, op, name);
    }
}

/// One character, whose recipe is number 1 of two, at 10 points.
static RECIPES: Sample<'static> = Sample {
    bc: 65,
    ec: 65,
    check_sum: 0x4445_AF0F,
    characters: &[Info {
        tag: 3,
        remainder: 1,
        ..A
    }],
    width: &[0, HALF],
    recipes: &[
        65, // only a part that is repeated
        0x303C_3AFF, // top 48, middle 60, bottom 58, repeated 255
    ],
    parameters: &[0x10_0000], // the slant
    ..PLAIN
};

static ALL: &str = "lf 17\nlh 2\nbc 65\nec 65\nnw 2\nnh 1\nnd 1\nni 1\nnl 0\nnk 0\nne 2\nnp 1\n\
    checksum 1145417487\ndesign 655360\nsize 655360\nright none\nleft none\n\
    char 65 width 327680 height 0 depth 0 italic 0 tag ext 1\nparam 1 1048576\n\
    recipe 0 top 0 mid 0 bot 0 rep 65\nrecipe 1 top 48 mid 60 bot 58 rep 255\n\
    word 0 00110002\nword 1 00410041\nword 2 00020001\nword 3 00010001\nword 4 00000000\n\
    word 5 00020001\nword 6 4445af0f\nword 7 00a00000\nword 8 01000301\nword 9 00000000\n\
    word 10 00080000\nword 11 00000000\nword 12 00000000\nword 13 00000000\nword 14 00000041\n\
    word 15 303c3aff\nword 16 00100000\n";

/// The full listing of a file, with bytes after the font, is this one; and a file that is cut isn't listed.
fn lists_all<R: Abort + AllocGlobal>(rt: &R, font: &Sample<'_>, wanted: &str) {
    let mut bytes = font.file(rt.alloc()).expect(rt, "memory");
    bytes.extend_from_slice(&[1, 2, 3, 4]).expect(rt, "memory"); // after the font
    let text = list_all_text(rt.alloc(), &bytes, None, TEXT).expect(rt, "a listing");
    same_text(rt, &text, wanted, &"with bytes after the font");
    bytes.truncate(67);
    let all = list_all_text(rt.alloc(), &bytes, None, TEXT).err();
    let of_file = list_file_text(rt.alloc(), &bytes, None, TEXT).err();
    same(
        rt,
        &(all, of_file),
        &(truncated!(68), truncated!(68)),
        &"67 bytes",
    );
}

#[test]
fn all_of_a_font_is_listed(rt: HostRuntime) {
    lists_all(&rt, &RECIPES, ALL);
}

/// The listing of `FULL` with other tags, in JSON.
static JSON: &str = "{\"unit\":\"sp\",\"checksum\":0,\"design\":655360,\"size\":655360,\
    \"right\":null,\"left\":null,\"chars\":[\
    {\"char\":97,\"width\":327680,\"height\":327680,\"depth\":20480,\"italic\":-40960,\"tag\":\"list\",\"remainder\":98},\
    {\"char\":98,\"width\":491520,\"height\":163840,\"depth\":491520,\"italic\":327680,\"tag\":\"ext\",\"remainder\":7},\
    {\"char\":99,\"width\":491520,\"height\":0,\"depth\":0,\"italic\":0,\"tag\":\"lig\",\"remainder\":2}],\
    \"steps\":[{\"step\":0,\"skip\":0,\"next\":98,\"action\":\"LIG\",\"value\":99},\
    {\"step\":1,\"skip\":128,\"next\":99,\"action\":\"KRN\",\"kern\":0,\"value\":-40960},\
    {\"step\":2,\"skip\":128,\"next\":98,\"action\":\"KRN\",\"kern\":1,\"value\":20480}],\
    \"kerns\":[{\"kern\":0,\"value\":-40960},{\"kern\":1,\"value\":20480}],\
    \"params\":[{\"param\":1,\"value\":1},{\"param\":2,\"value\":327680},\
    {\"param\":3,\"value\":-40960},{\"param\":4,\"value\":0}]}\n";

/// The full listing of a font with a recipe, in JSON and in points.
static ALL_JSON: &str =
    "{\"unit\":\"pt\",\"lf\":17,\"lh\":2,\"bc\":65,\"ec\":65,\"nw\":2,\"nh\":1,\"nd\":1,\
    \"ni\":1,\"nl\":0,\"nk\":0,\"ne\":2,\"np\":1,\"checksum\":1145417487,\"design\":\"10.0pt\",\
    \"size\":\"1.5pt\",\"right\":null,\"left\":null,\"chars\":[{\"char\":65,\"width\":\"0.75pt\",\
    \"height\":\"0.0pt\",\"depth\":\"0.0pt\",\"italic\":\"0.0pt\",\"tag\":\"ext\",\"remainder\":1}],\
    \"steps\":[],\"kerns\":[],\"params\":[{\"param\":1,\"value\":1048576}],\
    \"recipes\":[{\"recipe\":0,\"top\":0,\"mid\":0,\"bot\":0,\"rep\":65},\
    {\"recipe\":1,\"top\":48,\"mid\":60,\"bot\":58,\"rep\":255}],\
    \"words\":[{\"word\":0,\"bytes\":\"00110002\"},{\"word\":1,\"bytes\":\"00410041\"},";

/// A listing of the header in JSON: the texts have a double quote, a backslash and other bytes.
static HEADER_JSON: &str =
    "\"coding\":\" a\\\\x5c\\\\x7f\\\\xe9~\\\\x1f\\\"\",\"family\":\"\",\"sevenbit\":true,\"face\":9,\"right\":";

/// The listing of the header in JSON has this text.
fn lists_header<R: Abort + AllocGlobal>(rt: &R, layout: ListLayout, wanted: &str) {
    let (_, texts, _) = LISTINGS[2];
    let file = changed(rt.alloc(), &FONTS[1], texts).expect(rt, "memory");
    let text = list_file_text(rt.alloc(), &file, None, layout).expect(rt, "a listing");
    let text = str::from_utf8(&text).unwrap_or("");
    same(rt, &text.contains(wanted), &true, &text);
}

/// The full listing at 1.5 points begins and ends with these texts.
fn lists_ends<R: Abort + AllocGlobal>(rt: &R, layout: ListLayout, first: &str, last: &str) {
    let file = RECIPES.file(rt.alloc()).expect(rt, "memory");
    let size = Size::new(98_304);
    let text = list_all_text(rt.alloc(), &file, size, layout).expect(rt, "a listing");
    let text = str::from_utf8(&text).unwrap_or("");
    let found = (text.starts_with(first), text.ends_with(last));
    same(rt, &found, &(true, true), &text);
}

#[test]
fn listings_in_json(rt: HostRuntime) {
    let layout = ListLayout {
        format: Json,
        ..TEXT
    };
    lists_full(&rt, layout, JSON);
    lists_header(&rt, layout, HEADER_JSON);
    let points = ListLayout {
        unit: Points,
        ..layout
    };
    let last = "{\"word\":16,\"bytes\":\"00100000\"}]}\n";
    lists_ends(&rt, points, ALL_JSON, last);
}

const COUNTS: &str =
    "lf 12\nlh 2\nbc 1\nec 0\nnw 1\nnh 1\nnd 1\nni 1\nnl 0\nnk 0\nne 0\nnp 0\ndesign 327680\n";

/// The first bytes of the font without characters, with some words changed, have counts with this text, or this error.
fn has_counts<R: Abort + AllocGlobal>(
    rt: &R,
    (changes, len): (&[Change], usize),
    wanted: (&str, Option<FontFault>),
) {
    let file = changed(rt.alloc(), &FONTS[2], changes).expect(rt, "memory");
    let text = counts_text(rt.alloc(), &file[..len.min(file.len())]);
    let found = match &text {
        Ok(text) => (str::from_utf8(text).unwrap_or(""), None),
        Err(fault) => ("", Some(*fault)),
    };
    same(rt, &found, &wanted, &(changes, len));
}

#[test]
fn counts_have_a_text_or_an_error(rt: HostRuntime) {
    has_counts(&rt, (&[], 48), (COUNTS, None));
    has_counts(&rt, (&[], 47), ("", truncated!(48)));
    has_counts(&rt, (&[(7, 0x000F_0000)], 48), ("", BELOW_ONE));
}
