pub mod done;
pub mod errors;
pub mod failure;
