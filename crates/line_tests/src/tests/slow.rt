//! A second way to set a run or a span, by the definitions alone: the whole run is one list with a cursor, in
//! which each element has its place; each step replaces two neighbours in that list, and instructions are
//! searched for one after the other. It uses the instructions, kerns, widths and starts of the crate
//! `tfm_tables`.
use lig_kern::Item;
use spans::{ByteRange, PlacedItem, Span};
use std::process::Abort;
use tfm_tables::{Font, LeftSide, Step};

/// What stands in a run that is being set.
#[derive(Clone, Copy)]
enum Element {
    Left,
    Char(u8),
    Right,
    Kern(i32),
}

impl Element {
    /// What is left of it in the end: nothing of a boundary.
    fn item(self, font: &Font) -> Option<Item> {
        match self {
            Element::Left | Element::Right => None,
            Element::Kern(amount) => Some(Item::Kern(amount)),
            Element::Char(code) => {
                let width = font.metrics(code)?.width;
                Some(Item::Char { code, width })
            }
        }
    }
}

/// An element with the bytes of the text that it comes from.
#[derive(Clone, Copy)]
struct Placed {
    element: Element,
    place: ByteRange,
}

impl Placed {
    fn new(element: Element, start: usize, end: usize) -> Self {
        let place = ByteRange { start, end };
        Placed { element, place }
    }
}

/// The instruction for two neighbours: the first for the right one's code in the chain of the left one's
/// program.
fn instruction_for(font: &Font, left: Element, right: Element) -> Option<Step> {
    let side = match left {
        Element::Left => LeftSide::Boundary,
        Element::Char(code) => LeftSide::Char(code),
        Element::Right | Element::Kern(_) => return None,
    };
    let code = match right {
        Element::Char(code) => code,
        Element::Right => font.right_boundary()?,
        Element::Left | Element::Kern(_) => return None,
    };
    let mut address = font.start(side)?;
    for _ in 0..font.steps() {
        if address >= font.steps() {
            return None;
        }
        let step = font.step(address);
        if step.skip <= 128 && step.next == code {
            return Some(step);
        }
        if step.skip >= 128 {
            return None;
        }
        address = address.wrapping_add(usize::from(step.skip)).wrapping_add(1);
    }
    None
}

/// The amount of the kern that an instruction puts in.
fn amount_of(font: &Font, step: Step) -> i32 {
    let kern = 256 * usize::from(step.op & 127) + usize::from(step.remainder);
    if kern < font.kerns() {
        font.kern(kern)
    } else {
        0
    }
}

/// What takes the place of two neighbours, and how many elements the cursor passes over.
fn replaced(font: &Font, left: Placed, right: Placed) -> ([Option<Placed>; 3], usize) {
    let (l, r) = (Some(left), Some(right));
    let Some(step) = instruction_for(font, left.element, right.element) else {
        return ([l, r, None], 1);
    };
    let (begin, seam) = (left.place.start, right.place.start);
    if step.op >= 128 {
        let kern = Element::Kern(amount_of(font, step));
        return ([l, Some(Placed::new(kern, seam, seam)), r], 2);
    }
    let x = |start, end| Some(Placed::new(Element::Char(step.remainder), start, end));
    let (of_left, of_right) = (x(begin, left.place.end), x(seam, right.place.end));
    match step.op {
        1 => ([of_left, r, None], 0),
        2 => ([l, of_right, None], 0),
        3 => ([l, x(seam, seam), r], 0),
        5 => ([of_left, r, None], 1),
        6 => ([l, of_right, None], 1),
        7 => ([l, x(seam, seam), r], 1),
        11 => ([l, x(seam, seam), r], 2),
        _ => ([x(begin, right.place.end), None, None], 0),
    }
}

/// The run of a span between the boundaries that it has.
fn opening<R: Abort + AllocGlobal>(rt: &R, font: &Font, text: &[u8], span: Span) -> Vec<Placed> {
    let mut elements = Vec::new(rt.alloc());
    let mut at = span.offset;
    if span.left {
        elements
            .push(Placed::new(Element::Left, at, at))
            .expect(rt, "memory");
    }
    for code in text.iter().skip(span.offset).take(span.length) {
        let next = at.saturating_add(1);
        elements
            .push(Placed::new(Element::Char(*code), at, next))
            .expect(rt, "memory");
        at = next;
    }
    if let Some(code) = span.hyphen {
        elements
            .push(Placed::new(Element::Char(code), at, at))
            .expect(rt, "memory");
    }
    if span.right && font.right_boundary().is_some() {
        elements
            .push(Placed::new(Element::Right, at, at))
            .expect(rt, "memory");
    }
    elements
}

/// One step at the cursor. Returns the new cursor, or `None` if the current element is the last one.
fn step<R: Abort + AllocGlobal>(
    rt: &R,
    font: &Font,
    elements: &mut Vec<Placed>,
    cursor: usize,
) -> Option<usize> {
    let (before, rest) = elements.split_at(cursor.min(elements.len()));
    let [left, right, after @ ..] = rest else {
        return None;
    };
    let (put, pass) = replaced(font, *left, *right);
    let mut next = Vec::from_slice(rt.alloc(), before).expect(rt, "memory");
    for element in put {
        if let Some(element) = element {
            next.push(element).expect(rt, "memory");
        }
    }
    next.extend_from_slice(after).expect(rt, "memory");
    *elements = next;
    Some(cursor.wrapping_add(pass))
}

/// Appends the items of these elements, with their places.
fn push_items<R: Abort>(rt: &R, font: &Font, elements: &[Placed], items: &mut Vec<PlacedItem>) {
    for one in elements {
        if let Some(item) = one.element.item(font) {
            let place = one.place;
            items.push(PlacedItem { item, place }).expect(rt, "memory");
        }
    }
}

/// Sets a span in at most this many steps, and appends its items with their places. Returns the number of
/// steps, or `None` if these steps don't reach the end.
pub fn slow_place<R: Abort + AllocGlobal>(
    rt: &R,
    font: &Font,
    (text, span): (&[u8], Span),
    limit: u32,
    items: &mut Vec<PlacedItem>,
) -> Option<u32> {
    let mut elements = opening(rt, font, text, span);
    let mut cursor = 0;
    let mut taken = None;
    for steps in 0..=limit {
        match step(rt, font, &mut elements, cursor) {
            Some(next) => cursor = next,
            None => {
                taken = Some(steps);
                break;
            }
        }
    }
    if taken.is_some() {
        push_items(rt, font, &elements, items);
    }
    taken
}

/// Sets a run with its left boundary in at most this many steps, and appends its items. Returns the number of
/// steps, or `None` if these steps don't reach the end.
pub fn slow_set<R: Abort + AllocGlobal>(
    rt: &R,
    font: &Font,
    (run, right): (&[u8], bool),
    limit: u32,
    items: &mut Vec<Item>,
) -> Option<u32> {
    let span = Span {
        offset: 0,
        length: run.len(),
        left: true,
        right,
        hyphen: None,
    };
    let mut placed = Vec::new(rt.alloc());
    let taken = slow_place(rt, font, (run, span), limit, &mut placed);
    for one in &placed {
        items.push(one.item).expect(rt, "memory");
    }
    taken
}
