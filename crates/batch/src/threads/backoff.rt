use std::hint;
use std::time::Duration;

/// The number of polls without a result, in a row, that are followed by a pause. After the next one the
/// thread sleeps.
const LOOKS: u32 = 14;

/// The number of times that the length of the pauses is doubled.
const LONGEST: u32 = 6;

/// The longest time of the first sleep in a row, in milliseconds. A wake-up ends a sleep earlier.
const LEAST_SLEEP: u64 = 1;

/// The longest time of any sleep, in milliseconds: waiting for a source without lines then takes hardly any
/// processor time.
const MOST_SLEEP: u64 = 50;

/// The number of times that the time of the sleeps is doubled.
const DOUBLINGS: u32 = 6;

/// The numbers of polls without a result and of sleeps, in a row.
#[derive(Drop)]
pub(crate) struct Backoff {
    looks: u32,
    sleeps: u32,
}

impl Backoff {
    pub fn new() -> Self {
        Backoff {
            looks: 0,
            sleeps: 0,
        }
    }

    /// Starts again from the shortest pause, after a poll with a result.
    pub fn renew(&mut self) {
        self.looks = 0;
        self.sleeps = 0;
    }

    /// Pauses and returns true: the thread polls again. Returns false, without a pause, if the thread has
    /// polled often enough and should sleep.
    pub fn looks_again(&mut self) -> bool {
        if self.looks >= LOOKS {
            return false;
        }
        for _ in 0..1u32 << self.looks.min(LONGEST) {
            hint::spin_loop();
        }
        self.looks += 1;
        true
    }

    /// Returns the longest time of the next sleep. It doubles with each sleep in a row, up to 50
    /// milliseconds.
    pub fn sleep_time(&mut self) -> Duration {
        let millis = LEAST_SLEEP << self.sleeps.min(DOUBLINGS);
        self.sleeps = self.sleeps.saturating_add(1);
        Duration::from_millis(millis.min(MOST_SLEEP))
    }
}
