/// The reason why an item wasn't fed, with the unchanged item.
#[derive(Debug, Drop)]
pub enum OfferFault<I> {
    /// The feeder is closed.
    Closed(I),
    /// The item would fill the open block, and no free slot was found for this block.
    NoRoom(I),
}
