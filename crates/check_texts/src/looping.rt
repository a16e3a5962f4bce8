//! Finds a pair for which the lig/kern program never ends, by the analysis of tftopl.web, sections 88 to 95.
use std::alloc::{AllocError, Global};
use tfm_tables::{Font, LeftSide};

/// The number of the left boundary among the left neighbours, after the 256 codes.
const BOUNDARY: usize = 256;

/// The number of pairs. Pair 256 * l + r has the left neighbour l, a code or `BOUNDARY`, and the right one r.
const PAIRS: usize = 65_792;

/// What is known of a pair.
#[derive(Clone, Copy)]
enum Known {
    /// Nothing: the pair wasn't begun.
    Nothing,
    /// The value of the pair is needed for itself or for that of another pair.
    Pending,
    /// The value of the pair: the code to the left of the cursor once it has passed the right neighbour.
    Value(u8),
}

/// The value of a pair: a code, or the value of another pair.
enum Next {
    Code(u8),
    Of(usize),
}

/// The search for a pair whose value depends on itself.
#[derive(Drop)]
struct Search<'a> {
    font: &'a Font,
    known: Vec<Known>,
    /// The pending pairs. The value of each, except the last, needs that of the one after it.
    pending: Vec<usize>,
}

/// Returns a pair of neighbours for which the lig/kern program never ends, if there is one: the code of the
/// left neighbour, or `None` for the left boundary, and that of the right one, which is a character of the
/// font or the right boundary. Fails if an allocation fails.
pub fn endless_pair(alloc: Global, font: &Font) -> Result<Option<(Option<u8>, u8)>, AllocError> {
    let mut search = Search {
        font,
        known: vec![in alloc; Known::Nothing; PAIRS]?,
        pending: Vec::new(alloc),
    };
    for pair in 0..PAIRS {
        if search.can_meet(pair) {
            if let Some(found) = search.follow(pair)? {
                return Ok(Some((u8::try_from(found / 256).ok(), (found % 256) as u8)));
            }
        }
    }
    Ok(None)
}

impl<'a> Search<'a> {
    /// Returns whether the right neighbour is a character, or the right boundary after a character.
    fn can_meet(&self, pair: usize) -> bool {
        let right = (pair % 256) as u8;
        let is_boundary = self.font.right_boundary() == Some(right);
        self.font.exists(right) || is_boundary && pair / 256 < BOUNDARY
    }

    /// Computes the value of a pair, unless it is known. Returns a pair whose value depends on itself. Each pair is
    /// begun once and gets its value once, so that the turns suffice.
    fn follow(&mut self, first: usize) -> Result<Option<usize>, AllocError> {
        if matches!(self.known(first), Known::Nothing) {
            self.begin(first)?;
        }
        for _turn in 0..2 * PAIRS {
            let Some(pair) = self.pending.pop() else {
                return Ok(None);
            };
            let found = self.turn(pair)?;
            if found.is_some() {
                return Ok(found);
            }
        }
        Ok(None)
    }

    /// Computes the value of a pending pair, or begins the pair whose value it needs. Returns this pair if it is
    /// pending.
    fn turn(&mut self, pair: usize) -> Result<Option<usize>, AllocError> {
        match self.next(pair) {
            Next::Code(code) => self.set(pair, Known::Value(code)),
            Next::Of(needed) => match self.known(needed) {
                Known::Value(code) => self.set(pair, Known::Value(code)),
                Known::Pending => return Ok(Some(needed)),
                Known::Nothing => {
                    self.pending.push(pair)?;
                    self.begin(needed)?;
                }
            },
        }
        Ok(None)
    }

    /// Begins a pair of which nothing is known.
    fn begin(&mut self, pair: usize) -> Result<(), AllocError> {
        self.set(pair, Known::Pending);
        self.pending.push(pair)?;
        Ok(())
    }

    /// Returns the value of a pair by the instruction that matches it.
    fn next(&self, pair: usize) -> Next {
        let (left, right) = (pair / 256, (pair % 256) as u8);
        let side = u8::try_from(left).map_or(LeftSide::Boundary, LeftSide::Char);
        let Some(address) = self.font.find(side, right) else {
            return Next::Code(right);
        };
        let step = self.font.step(address);
        let code = usize::from(step.remainder);
        let before = pair - usize::from(right) + code;
        match (step.op, self.known(before)) {
            (128..=255 | 5 | 11, _) => Next::Code(right),
            (1 | 7, _) => Next::Of(256 * code + usize::from(right)),
            (3, Known::Value(passed)) => Next::Of(256 * usize::from(passed) + usize::from(right)),
            (2 | 3, _) => Next::Of(before),
            _ => Next::Code(step.remainder),
        }
    }

    /// Returns what is known of a pair.
    fn known(&self, pair: usize) -> Known {
        self.known.get(pair).map_or(Known::Nothing, |known| *known)
    }

    /// Records what is known of a pair.
    fn set(&mut self, pair: usize, known: Known) {
        if let Some(entry) = self.known.get_mut(pair) {
            *entry = known;
        }
    }
}
