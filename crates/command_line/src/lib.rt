//! Parses the arguments that follow the program's name, and returns the request that they state.
#![tactic(auto)]

pub use reading::requested;
pub use request::{
    Arguments, CheckLayout, Checking, Jobs, Layout, Listing, Pairing, Request, Setting,
};

mod argument_tables;
mod commands;
mod help;
mod reading;
mod request;
