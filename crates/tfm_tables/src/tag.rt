/// The tag of a character: the meaning of the remainder of its char_info word (tftopl.web, section 12).
#[derive(Clone, Copy, Debug, PartialEq, Eq)]
pub enum Tag {
    /// The remainder has no meaning.
    Plain,
    /// The address of the first instruction of the character's lig/kern program, or of an indirect
    /// start.
    Lig(u8),
    /// The code of the next larger character in a charlist.
    List(u8),
    /// The index of the extensible recipe of the character.
    Ext(u8),
}
