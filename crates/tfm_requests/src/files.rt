pub mod opening;
pub mod reading;
pub mod sources;
pub mod vectors;
