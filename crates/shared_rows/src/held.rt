//! A disk whose sync is held until somebody else lets it go.

ghost use Rattle.std.specs.Prelude.{[], false};
ghost use Rattle.disk.specs.State.{of_bytes};

use disk::{Disk, DiskFault};
use std::sync::atomic::{AtomicBool, Ordering};
use std::thread::sleep;
use std::time::{Clock, Duration};

/// How often a side waits for the other at most, a microsecond each time.
const TURNS: u32 = 1_000_000;

/// What both sides know.
#[derive(Drop)]
pub(crate) struct Gate {
    /// Whether the next sync is to be held.
    armed: AtomicBool,
    /// Whether a sync has begun since then.
    begun: AtomicBool,
    /// Whether it is let go.
    open: AtomicBool,
}

impl Gate {
    pub(crate) fn new() -> Gate {
        Gate {
            armed: AtomicBool::new(false),
            begun: AtomicBool::new(false),
            open: AtomicBool::new(false),
        }
    }

    /// From now on a sync is held.
    pub(crate) fn arm(&self) {
        self.armed.store(true, Ordering::SeqCst);
    }

    /// Lets the sync go.
    pub(crate) fn let_go(&self) {
        self.open.store(true, Ordering::SeqCst);
    }

    /// Waits until a sync is held. Whether one is.
    pub(crate) fn is_held<C: Clock>(&self, clock: &C) -> bool {
        comes(clock, &self.begun)
    }

    // Waits, where it is armed, until the sync is let go.
    fn hold<C: Clock>(&self, clock: &C) {
        if self.armed.load(Ordering::SeqCst) {
            self.begun.store(true, Ordering::SeqCst);
            comes(clock, &self.open);
        }
    }
}

// Waits until the flag is set. Whether it was.
fn comes<C: Clock>(clock: &C, flag: &AtomicBool) -> bool {
    for _ in 0..TURNS {
        if flag.load(Ordering::SeqCst) {
            return true;
        }
        sleep(clock, Duration::from_micros(1));
    }
    false
}

/// A disk with a gate before each sync. It claims nothing.
#[derive(Drop)]
pub(crate) struct HeldDisk<'a, D: Disk, C: Clock> {
    inner: D,
    gate: &'a Gate,
    clock: &'a C,
}

impl<'a, D: Disk, C: Clock> HeldDisk<'a, D, C> {
    pub(crate) fn new(inner: D, gate: &'a Gate, clock: &'a C) -> HeldDisk<'a, D, C> {
        HeldDisk { inner, gate, clock }
    }
}

impl<D: Disk, C: Clock> Disk for HeldDisk<'_, D, C> {
    ghost state = { λ d. of_bytes false [] (D.state d.inner).failures };

    fn len(&mut self) -> Result<usize, DiskFault> {
        self.inner.len()
    }

    fn read_at(&mut self, at: usize, buf: &mut [u8]) -> Result<usize, DiskFault> {
        self.inner.read_at(at, buf)
    }

    fn write_at(&mut self, at: usize, bytes: &[u8]) -> Result<(), DiskFault> {
        self.inner.write_at(at, bytes)
    }

    fn cut(&mut self, len: usize) -> Result<(), DiskFault> {
        self.inner.cut(len)
    }

    fn sync(&mut self) -> Result<(), DiskFault> {
        self.gate.hold(self.clock);
        self.inner.sync()
    }
}
