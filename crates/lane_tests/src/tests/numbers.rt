//! Numbers as items of lanes, and as their own results.
use super::lane::Named;
use dealt_lanes::Shared;
use lanes::{Made, Making, Stored};
use set_line::OutOfMemory;
use std::alloc::Global;

/// An item whose messages have one slot. It is large if it is 100 or more.
#[derive(Drop)]
pub struct Number {
    value: u32,
}

impl Stored for Number {
    type Slots = Option<Number>;

    fn is_large(&self) -> bool {
        self.value >= 100
    }
}

impl Made for Number {
    ghost is_right = { λ _. Unit {0} };

    fn show_right(&self) {}
}

/// Makes each item its result. For the number 13, an allocation fails.
#[derive(Drop)]
pub struct Same;

impl Making for Same {
    ghost use Rattle.std.proofs.Common.{rules};

    type In = Number;

    type Out = Number;

    ghost makes = { λ _ item. item };

    ghost slots = { 1 };

    fn make(&mut self, alloc: Global, input: Number) -> Result<Number, (Number, OutOfMemory)> {
        let _ = alloc;
        match input.value {
            13 => Err((input, OutOfMemory)),
            _ => Ok(input),
        }
    }

    ghost fits = { Prim.search rules };
}

impl Shared for Same {
    fn share(&self) -> Result<Same, OutOfMemory> {
        Ok(Same)
    }
}

impl Named for Same {
    fn item(alloc: Global, name: &str) -> Option<Number> {
        let _ = alloc;
        Some(Number {
            value: name.parse::<u32>().ok()?,
        })
    }

    fn is_item(item: &Number, name: &str) -> bool {
        name.parse::<u32>() == Ok(item.value)
    }

    fn is_result(made: &Number, name: &str) -> bool {
        name.parse::<u32>() == Ok(made.value)
    }
}
