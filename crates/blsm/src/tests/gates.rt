// Gates that make threads wait for one another. They give up after so many looks, as where jobs run one after another.
use blsm_model::{Gate, Point};
use std::sync::atomic::{AtomicBool, AtomicU64, Ordering};
use std::thread::yield_now;

const MOST_LOOKS: u64 = 200_000_000;

// A number that threads raise, and wait for.
#[derive(Drop)]
struct Count {
    number: AtomicU64,
    gave_up: AtomicBool,
}

impl Count {
    fn new() -> Count {
        Count {
            number: AtomicU64::new(0),
            gave_up: AtomicBool::new(false),
        }
    }

    // Raises it, and tells the number that it is then.
    fn raise(&self) -> u64 {
        self.number.fetch_add(1, Ordering::SeqCst).saturating_add(1)
    }

    // Waits until it is no less.
    fn wait(&self, least: u64) {
        for _ in 0..MOST_LOOKS {
            if self.number.load(Ordering::SeqCst) >= least {
                return;
            }
            yield_now();
        }
        self.gave_up.store(true, Ordering::SeqCst);
    }

    fn gave_up(&self) -> bool {
        self.gave_up.load(Ordering::SeqCst)
    }
}

/// Holds caller 16 at Admitted until the fifteen others were there, and these there until caller 16 was at Answered so often.
#[derive(Drop)]
pub struct Fifteen {
    admitted: Count,
    answered: Count,
    until: u64,
}

impl Fifteen {
    pub fn new(until: u64) -> Fifteen {
        Fifteen {
            admitted: Count::new(),
            answered: Count::new(),
            until,
        }
    }

    /// Somebody waited in vain.
    pub fn gave_up(&self) -> bool {
        self.admitted.gave_up() || self.answered.gave_up()
    }
}

impl Gate for Fifteen {
    fn at(&self, seat: u32, point: Point) {
        match (seat, point) {
            (15, Point::Admitted) => self.admitted.wait(15),
            (15, Point::Answered) => {
                self.answered.raise();
            }
            (0..=14, Point::Admitted) => {
                self.admitted.raise();
                self.answered.wait(self.until);
            }
            _ => {}
        }
    }
}

/// Holds the one worker after its first turn until caller 1 was at Answered so often, and the caller there until the worker took so many turns. The
/// first turn comes before the caller's second line.
#[derive(Drop)]
pub struct OneWorker {
    turned: Count,
    answered: Count,
    until: u64,
    turns: u64,
}

impl OneWorker {
    pub fn new(until: u64, turns: u64) -> OneWorker {
        OneWorker {
            turned: Count::new(),
            answered: Count::new(),
            until,
            turns,
        }
    }

    /// Somebody waited in vain.
    pub fn gave_up(&self) -> bool {
        self.turned.gave_up() || self.answered.gave_up()
    }
}

impl Gate for OneWorker {
    fn at(&self, _seat: u32, point: Point) {
        match point {
            Point::Turned => {
                if self.turned.raise() == 1 {
                    self.answered.wait(self.until);
                }
            }
            Point::Answered => {
                let answered = self.answered.raise();
                self.turned
                    .wait(if answered < self.until { 1 } else { self.turns });
            }
            _ => {}
        }
    }
}
