//! What wakes threads that have nothing to do.

ghost use Rattle.std.specs.Prelude.{◌≡◌};
ghost use Rattle.ln_node.specs.Wakeup.{pause_of};

use std::sync::Wait;
use std::sync::atomic::{AtomicU64, Ordering};
use std::thread::Parker;
use std::time::Duration;

/// A wake-up that one thread waits for. One that sounds while the thread is busy ends its next wait at once, so that
/// none is slept over.
#[derive(Drop)]
pub(crate) struct Wakeup {
    parker: Parker,
}

// For how many milliseconds a thread waits at most, after so many loads in a row that were refused.
fn pause_of(refused: u64) -> u64
    ensures { result ≡ pause_of refused }
{
    if refused == 0 {
        100
    } else if refused < 10 {
        1u64 << refused
    } else {
        1000
    }
}

impl Wakeup {
    /// A wake-up that hasn't sounded.
    pub(crate) fn new() -> Wakeup {
        Wakeup {
            parker: Parker::new(),
        }
    }

    /// Sounds.
    pub(crate) fn ring(&self) {
        self.parker.unpark();
    }

    /// Waits, where it hasn't sounded since the last wait: until it does, or a tenth of a second; after loads in a row
    /// that were refused two thousandths of a second, and twice as long after each, up to a second.
    pub(crate) fn wait<R: Wait>(&self, rt: &R, refused: u64) {
        let pause = Duration::from_millis(pause_of(refused));
        self.parker.park_timeout(rt, pause);
    }
}

/// A bell that any number of threads wait for. One that looks for what it waits for has to count the sounds first.
#[derive(Drop)]
pub(crate) struct Bell {
    sounds: AtomicU64,
}

impl Bell {
    /// A bell that hasn't sounded.
    pub(crate) fn new() -> Bell {
        Bell {
            sounds: AtomicU64::new(0),
        }
    }

    /// How often it has sounded, up to 2^64 times.
    pub(crate) fn sounds(&self) -> u64 {
        self.sounds.load(Ordering::SeqCst)
    }

    /// Sounds.
    pub(crate) fn ring(&self) {
        self.sounds.fetch_add(1, Ordering::SeqCst);
        self.sounds.wake_all();
    }

    /// Waits, where it hasn't sounded since it had sounded so often: until it does, or a thousandth of a second.
    pub(crate) fn wait<R: Wait>(&self, rt: &R, sounds: u64) {
        let low = (sounds & 0xffff_ffff) as u32;
        self.sounds.park_timeout(rt, low, Duration::from_millis(1));
    }
}
