//! The codes of OT1, the encoding of cmr10.
use crate::tables::{OtherCodes, SingleCodes, X};

/// The codes of the characters up to U+017F, and from U+2000 to U+203F, that have a single code.
pub(crate) static OT1_SINGLE: SingleCodes = [
    // U+0000 to U+000F
    X, X, X, X, X, X, X, X, X, X, X, X, X, X, X, X,
    // U+0010 to U+001F
    X, X, X, X, X, X, X, X, X, X, X, X, X, X, X, X,
    // U+0020 to U+002F
    32, 33, 34, 35, X, 37, 38, 39, 40, 41, 42, 43, 44, 45, 46, 47,
    // U+0030 to U+003F
    48, 49, 50, 51, 52, 53, 54, 55, 56, 57, 58, 59, 60, 61, 62, 63,
    // U+0040 to U+004F
    64, 65, 66, 67, 68, 69, 70, 71, 72, 73, 74, 75, 76, 77, 78, 79,
    // U+0050 to U+005F
    80, 81, 82, 83, 84, 85, 86, 87, 88, 89, 90, 91, X, 93, X, X,
    // U+0060 to U+006F
    96, 97, 98, 99, 100, 101, 102, 103, 104, 105, 106, 107, 108, 109, 110, 111,
    // U+0070 to U+007F
    112, 113, 114, 115, 116, 117, 118, 119, 120, 121, 122, X, 124, X, X, X,
    // U+0080 to U+008F
    X, X, X, X, X, X, X, X, X, X, X, X, X, X, X, X,
    // U+0090 to U+009F
    X, X, X, X, X, X, X, X, X, X, X, X, X, X, X, X,
    // U+00A0 to U+00AF
    32, X, X, X, X, X, X, X, X, X, X, X, X, X, X, X,
    // U+00B0 to U+00BF
    X, X, X, X, X, X, X, X, X, X, X, X, X, X, X, X,
    // U+00C0 to U+00CF
    X, X, X, X, X, X, 29, X, X, X, X, X, X, X, X, X,
    // U+00D0 to U+00DF
    X, X, X, X, X, X, X, X, 31, X, X, X, X, X, X, 25,
    // U+00E0 to U+00EF
    X, X, X, X, X, X, 26, X, X, X, X, X, X, X, X, X,
    // U+00F0 to U+00FF
    X, X, X, X, X, X, X, X, 28, X, X, X, X, X, X, X,
    // U+0100 to U+010F
    X, X, X, X, X, X, X, X, X, X, X, X, X, X, X, X,
    // U+0110 to U+011F
    X, X, X, X, X, X, X, X, X, X, X, X, X, X, X, X,
    // U+0120 to U+012F
    X, X, X, X, X, X, X, X, X, X, X, X, X, X, X, X,
    // U+0130 to U+013F
    X, 16, X, X, X, X, X, X, X, X, X, X, X, X, X, X,
    // U+0140 to U+014F
    X, X, X, X, X, X, X, X, X, X, X, X, X, X, X, X,
    // U+0150 to U+015F
    X, X, 30, 27, X, X, X, X, X, X, X, X, X, X, X, X,
    // U+0160 to U+016F
    X, X, X, X, X, X, X, X, X, X, X, X, X, X, X, X,
    // U+0170 to U+017F
    X, X, X, X, X, X, X, X, X, X, X, X, X, X, X, X,
    // U+2000 to U+200F
    X, X, X, X, X, X, X, X, X, X, X, X, X, X, X, X,
    // U+2010 to U+201F
    45, X, 123, 123, 124, 124, X, X, 96, 39, X, X, 92, 34, X, X,
    // U+2020 to U+202F
    X, X, X, X, X, X, X, X, X, X, X, X, X, X, X, X,
    // U+2030 to U+203F
    X, X, X, X, X, X, X, X, X, X, X, X, X, X, X, X,
];

/// The codes of all other characters that have codes.
pub(crate) static OT1_OTHERS: [OtherCodes; 19] = [
    ('\u{A1}', 2, [33, 96, 0]), // ¡
    ('\u{AD}', 0, [0, 0, 0]), // soft hyphen
    ('\u{BF}', 2, [63, 96, 0]), // ¿
    ('\u{1C7}', 2, [76, 74, 0]), // Ǉ
    ('\u{1C8}', 2, [76, 106, 0]), // ǈ
    ('\u{1C9}', 2, [108, 106, 0]), // ǉ
    ('\u{1CA}', 2, [78, 74, 0]), // Ǌ
    ('\u{1CB}', 2, [78, 106, 0]), // ǋ
    ('\u{1CC}', 2, [110, 106, 0]), // ǌ
    ('\u{237}', 1, [17, 0, 0]), // ȷ
    ('\u{1E9E}', 2, [83, 83, 0]), // ẞ
    ('\u{2011}', 1, [45, 0, 0]), // non-breaking hyphen
    ('\u{FB00}', 2, [102, 102, 0]), // ﬀ
    ('\u{FB01}', 2, [102, 105, 0]), // ﬁ
    ('\u{FB02}', 2, [102, 108, 0]), // ﬂ
    ('\u{FB03}', 3, [102, 102, 105]), // ﬃ
    ('\u{FB04}', 3, [102, 102, 108]), // ﬄ
    ('\u{FB05}', 2, [115, 116, 0]), // ﬅ
    ('\u{FB06}', 2, [115, 116, 0]), // ﬆ
];
