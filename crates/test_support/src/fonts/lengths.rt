//! Fonts of which some part is long: the header, the kerns, the recipes, the parameters, or what stands
//! after the last word. Each is accepted.
use super::instructions::{far_kern_before, last};
use super::named::{A_FROM_0, B, C, PLAIN, header_texts};
use super::sample::{Info, Sample};
use std::alloc::{AllocError, Global};
use tfm_tables::Step;

/// How long the parts of a font are. It has the characters a, b and c, of 10 points, and the program
/// of a has a kern before each of the three.
#[derive(Clone, Copy)]
pub struct Lengths {
    /// The words of the header: the two numbers, the header's texts, and then letters.
    pub header: u16,
    /// The kerns, as `amount_of` says.
    pub kerns: u16,
    /// The recipes, of two kinds in turn. If there is one, b has the last one.
    pub recipes: u16,
    /// The parameters: number n is n times 160 scaled points, and the slant 256 units.
    pub parameters: u16,
    /// The bytes after the last word.
    pub after: usize,
    /// Which kerns stand before a, b and c.
    pub used: [u16; 3],
}

/// The least that a font with such a program needs, with a space.
pub const SHORT: Lengths = Lengths {
    header: 2,
    kerns: 3,
    recipes: 0,
    parameters: 2,
    after: 0,
    used: [0, 1, 2],
};

/// The short font, but with these lengths.
macro_rules! with {
    ($($part:ident: $length:expr),+) => {
        Lengths {
            $($part: $length,)+
            ..SHORT
        }
    };
}

/// Fonts of which a part is longer than in most fonts, and how many words each has.
pub static LONG: [(&str, Lengths, u16); 23] = [
    ("nothing long", SHORT, 26),
    ("no parameters", with!(parameters: 0), 24),
    ("7 parameters", with!(parameters: 7), 31),
    ("8 parameters", with!(parameters: 8), 32),
    ("22 parameters", with!(parameters: 22), 46),
    ("30 parameters", with!(parameters: 30), 54),
    ("32743 parameters", with!(parameters: 32_743), 32_767),
    ("a header of 12 words", with!(header: 12), 36),
    ("a header of 17 words", with!(header: 17), 41),
    ("a header of 18 words", with!(header: 18), 42),
    ("a header of 31 words", with!(header: 31), 55),
    ("a header of 40 words", with!(header: 40), 64),
    ("a header of 32743 words", with!(header: 32_743), 32_767),
    ("a recipe", with!(recipes: 1), 27),
    ("256 recipes", with!(recipes: 256), 282),
    ("a byte after the last word", with!(after: 1), 26),
    ("four bytes after it", with!(after: 4), 26),
    ("200000 bytes after it", with!(after: 200_000), 26),
    ("256 kerns", with!(kerns: 256, used: [0, 254, 255]), 279),
    ("257 kerns", with!(kerns: 257, used: [254, 255, 256]), 280),
    ("700 kerns", with!(kerns: 700, used: [256, 511, 699]), 723),
    (
        "32744 kerns",
        with!(kerns: 32_744, used: [32_512, 511, 32_743]),
        32_767,
    ),
    (
        "all of it",
        Lengths {
            header: 40,
            kerns: 300,
            recipes: 256,
            parameters: 30,
            after: 5,
            used: [255, 256, 299],
        },
        645,
    ),
];

/// The amount of kern number `kern` at 10 points: those with an even number are ahead, the others back.
pub fn amount_of(kern: u16) -> i32 {
    let amount = 160 * (i32::from(kern) + 1);
    if kern % 2 == 0 { amount } else { -amount }
}

/// The parts that aren't those of the plain font.
#[derive(Drop)]
struct Parts {
    texts: Vec<u8>,
    characters: [Info; 3],
    program: [Step; 3],
    kerns: Vec<u32>,
    recipes: Vec<u32>,
    parameters: Vec<u32>,
}

impl Parts {
    /// The font with these parts.
    fn sample(&self) -> Sample<'_> {
        Sample {
            texts: &self.texts,
            characters: &self.characters,
            program: &self.program,
            kerns: &self.kerns,
            recipes: &self.recipes,
            parameters: &self.parameters,
            ..PLAIN
        }
    }
}

impl Lengths {
    /// The font's file.
    pub fn file(&self, alloc: Global) -> Result<Vec<u8>, AllocError> {
        let mut file = self.parts(alloc)?.sample().file(alloc)?;
        file.resize(file.len().saturating_add(self.after), 0xEE)?;
        Ok(file)
    }

    /// The parts with these lengths.
    fn parts(&self, alloc: Global) -> Result<Parts, AllocError> {
        Ok(Parts {
            texts: texts(alloc, self.header)?,
            characters: [A_FROM_0, self.b(), C],
            program: self.program(),
            kerns: kerns(alloc, self.kerns)?,
            recipes: recipes(alloc, self.recipes)?,
            parameters: parameters(alloc, self.parameters)?,
        })
    }

    /// The program of a.
    fn program(&self) -> [Step; 3] {
        let [before_a, before_b, before_c] = self.used;
        [
            far_kern_before(97, before_a),
            far_kern_before(98, before_b),
            last(far_kern_before(99, before_c)),
        ]
    }

    /// The character b.
    fn b(&self) -> Info {
        if self.recipes == 0 {
            return B;
        }
        let [_, recipe] = (self.recipes - 1).to_be_bytes();
        Info {
            tag: 3,
            remainder: recipe,
            ..B
        }
    }
}

/// The header's texts, cut or continued by letters so that the header has this many words.
fn texts(alloc: Global, header: u16) -> Result<Vec<u8>, AllocError> {
    let mut texts = Vec::from_slice(alloc, &header_texts())?;
    texts.resize(4 * usize::from(header.saturating_sub(2)), b'x')?;
    Ok(texts)
}

/// This many kerns. At 10 points 256 units of 2^-20 are 160 scaled points.
fn kerns(alloc: Global, count: u16) -> Result<Vec<u32>, AllocError> {
    let mut kerns = Vec::new(alloc);
    for kern in 0..count {
        let units = 256 * (u32::from(kern) + 1);
        kerns.push(if kern % 2 == 0 {
            units
        } else {
            units.wrapping_neg()
        })?;
    }
    Ok(kerns)
}

/// This many recipes: for an even number all pieces but the middle one, for an odd one the middle
/// piece and the one that is repeated.
fn recipes(alloc: Global, count: u16) -> Result<Vec<u32>, AllocError> {
    let mut recipes = Vec::new(alloc);
    for recipe in 0..count {
        recipes.push(if recipe % 2 == 0 {
            0x6100_6263 // top 97, bottom 98, repeated 99
        } else {
            0x0062_0061 // middle 98, repeated 97
        })?;
    }
    Ok(recipes)
}

/// This many parameters.
fn parameters(alloc: Global, count: u16) -> Result<Vec<u32>, AllocError> {
    let mut parameters = Vec::new(alloc);
    for before in 0..count {
        parameters.push(256 * (u32::from(before) + 1))?;
    }
    Ok(parameters)
}
