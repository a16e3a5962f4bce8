/// The result of a span.
#[derive(Clone, Copy, Debug, PartialEq, Eq)]
pub enum SpanOutcome {
    /// The span was set.
    Set(SpanSize),
    /// The span was refused.
    Refused(SpanRefusal),
}

/// The sums of a span that was set.
#[derive(Clone, Copy, Debug, PartialEq, Eq)]
pub struct SpanSize {
    /// The sum of the widths of the characters and of the kerns, in sp.
    pub width: i64,
    /// The number of characters and kerns.
    pub items: usize,
    /// The number of steps of the run.
    pub steps: u32,
}

/// The reason why a span was refused. The first that applies, in this order, is reported.
#[derive(Clone, Copy, Debug, PartialEq, Eq)]
pub enum SpanRefusal {
    /// The end of the span is after the end of the text.
    Outside,
    /// The span has more than 65,535 codes, without the hyphen.
    TooLong,
    /// A code is no character of the font: the first one. The offset of a code is its byte offset in the
    /// text, and that of the hyphen is the end of the span.
    Missing { offset: usize, code: u8 },
    /// The run takes more steps than the limit, or never ends.
    Steps,
}
