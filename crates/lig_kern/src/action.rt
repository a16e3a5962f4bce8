/// What the lig/kern instruction that matches two neighbours does between them (tftopl.web, section 13;
/// The METAFONTbook, Appendix F).
#[derive(Clone, Copy, Debug, PartialEq, Eq)]
pub enum Action {
    /// Inserts a kern of this amount between the two, in scaled points (sp).
    Kern(i32),
    /// Inserts a character between the two, keeps or deletes each of them, and moves the cursor past
    /// `pass` of the elements that replace the two.
    Lig {
        /// The code of the inserted character.
        code: u8,
        /// Whether the left neighbour is kept.
        keep_left: bool,
        /// Whether the right neighbour is kept.
        keep_right: bool,
        /// How many elements the cursor passes over, counted from the first of the elements that
        /// replace the two neighbours; the element after them is the new current one. `first_match`
        /// returns 0, 1 or 2.
        pass: u8,
    },
}
