//! Vectors of characters.
ghost use Rattle.std.specs.Prelude.{◌≡◌};
ghost use Rattle.std.specs.Borrow.{Bor};
ghost use Rattle.encodings.specs.declared.encoding.Encoding.TheVariants.{Vector as InVector};
ghost use Rattle.encodings.specs.Codes.{IsMadeOf};
ghost use Rattle.encodings.specs.VectorContents.{Contents};

use crate::tables::SingleCodes;
use crate::vector_characters::{given_numbers, hints, numbers, own_numbers};
use crate::vector_tables::singles;
use std::marker::Model;

/// The characters of an encoding that is made of the characters of 256 codes.
#[derive(Debug, Drop, PartialEq, Eq)]
pub struct Vector {
    /// The numbers of the characters by code, each at the code that sets it alone.
    pub(crate) characters: [u32; 256],
    /// The codes that are tried first for the characters whose numbers have these lowest ten bits.
    pub(crate) hints: [u8; 1024],
    /// The single codes of the characters, in the order of the tables of the named encodings.
    pub(crate) singles: SingleCodes,
}

impl Model for Vector {
    ghost use Rattle.std.specs.Prelude.{◌≡◌};
    ghost use Rattle.encodings.specs.VectorContents.{Contents};

    ghost Value = { Contents };

    ghost use Rattle.std.proofs.Common.{ap, sym};
    ghost use Rattle.encodings.specs.Vectors.{vector_characters};
    ghost use Rattle.encodings.specs.VectorTables.{singles_of};

    ghost view = { λ v. record { characters = v.characters; hints = v.hints } };

    ghost invariant = { λ v. (v.characters ≡ vector_characters v.characters)
        × (v.singles ≡ singles_of (vector_characters v.characters)) };

    ghost inverse = { λ contents. record {
      characters = contents.characters;
      hints = contents.hints;
      singles = singles_of (vector_characters contents.characters);
    } };

    ghost inverse_ok = { λ v made. ap (λ singles.
        record { characters = v.characters; hints = v.hints; singles = singles }) (sym made.1) };
}

impl Vector {
    /// Returns the vector of the characters of 256 codes, in the order of the codes; `None` is a code without a
    /// character. Codes after the end of the list have none, and characters after the 256th are ignored.
    ///
    /// Code 32 is the space, whatever the list has there, and no other code is. Code 10 has no character,
    /// since it would end a line. A character that is listed for several other codes is set by the code that is
    /// its own number, if this is one of them, and otherwise by the lowest of them. Whatever the list has, a
    /// no-break space is set as code 32 and a soft hyphen has an empty list of codes, as in OT1, T1 and LY1;
    /// neither is the character of any code.
    ///
    /// `'` and the grave accent (U+0060) are set by the codes of ’ and ‘, if these are listed. Four characters that
    /// have no code are set by the code of another character, if this has one: the hyphens U+2010 and U+2011 as
    /// `-`, the figure dash (U+2012) as –, and the horizontal bar (U+2015) as —.
    ///
    /// No memory is allocated. The vector has 2.9 KB, most of them tables by character, from which the codes of a
    /// text are looked up. Making them takes longer than setting a short text: make one vector for a whole batch,
    /// not one for each line.
    #[tactic(auto, using(crate::proofs::VectorLemmas::made))]
    pub fn of_characters(characters: &[Option<char>]) -> Self
        ensures { (vector : Bor Contents) → vector.now ≡ result → IsMadeOf characters.now (InVector vector) }
    {
        let characters = own_numbers(&given_numbers(&numbers(characters)));
        let hints = hints(&characters);
        let singles = singles(&characters);
        Vector {
            characters,
            hints,
            singles,
        }
    }
}
