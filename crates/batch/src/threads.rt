//! The threads of the sources and of the workers: how they are started, work, wait, are woken and are
//! stopped.

pub(crate) mod backoff;
mod progress;
pub(crate) mod signals;
pub(crate) mod source_thread;
pub(crate) mod spawning;
pub(crate) mod worker;
mod worker_thread;
