//! A gate that counts.
use batch::{Gate, Stage};
use std::sync::atomic::{AtomicU64, Ordering};

/// A gate that counts how often each thread of a batch enters it.
#[derive(Drop)]
pub struct CountingGate {
    sources: AtomicU64,
    setters: AtomicU64,
    collectors: AtomicU64,
}

impl CountingGate {
    /// Makes a gate that no thread has entered.
    pub fn new() -> CountingGate {
        CountingGate {
            sources: AtomicU64::new(0),
            setters: AtomicU64::new(0),
            collectors: AtomicU64::new(0),
        }
    }

    /// Returns the entries of the sources, the setters and the collectors. Each hexadecimal digit is the
    /// count of one thread, the last digit that of thread 0.
    pub fn entries(&self) -> (u64, u64, u64) {
        (
            self.sources.load(Ordering::SeqCst),
            self.setters.load(Ordering::SeqCst),
            self.collectors.load(Ordering::SeqCst),
        )
    }

    /// Returns whether each of this many sources and of this many workers, and the collecting thread, entered it once.
    /// Of more than 16 threads of a kind only the first 16 are counted.
    pub fn was_entered_by(&self, sources: usize, workers: usize) -> bool {
        self.entries() == (ones(sources), ones(workers), 1)
    }
}

/// Returns this many hexadecimal digits 1, of which there are at most 16.
fn ones(count: usize) -> u64 {
    let mut digits = 0u64;
    for _ in 0..count.min(16) {
        digits = digits.wrapping_mul(16).wrapping_add(1);
    }
    digits
}

impl Gate for CountingGate {
    fn enter(&self, stage: Stage, number: usize) {
        let mut digit = 1u64;
        for _ in 0..number {
            digit = digit.wrapping_mul(16);
        }
        let entered = match stage {
            Stage::Source => &self.sources,
            Stage::Setter => &self.setters,
            Stage::Collector => &self.collectors,
        };
        entered.fetch_add(digit, Ordering::SeqCst);
    }
}
