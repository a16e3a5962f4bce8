pub mod delivery;
pub mod each;
pub mod jobs;
pub mod setting;
