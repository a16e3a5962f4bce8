//! The types of `lanes`, for lines.
use crate::LineMaker;
use set_line::{Answer, Line};

/// The endpoint of a lane where lines are fed.
pub type Feeder = lanes::Feeder<Line>;

/// The endpoint of a lane that sets lines.
pub type Setter = lanes::Setter<LineMaker>;

/// The endpoint of a lane from which answers are taken.
pub type Taker = lanes::Taker<Answer>;

/// The three endpoints of a lane of lines that isn't finished.
pub type Open = lanes::Open<LineMaker>;

/// The reason why a line wasn't fed, with the unchanged line.
pub type OfferFault = lanes::OfferFault<Line>;

/// What a taker has taken from its lane of lines.
pub type Took = lanes::Took<Answer>;
