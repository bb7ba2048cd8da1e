// Where callers sleep that wait for their turn, each by its ticket.
use std::array;
use std::sync::Wait;
use std::thread::Parker;

// More than there are callers, so two tickets that are drawn and not yet given back have different bells.
const BELLS: usize = 32;

#[derive(Drop)]
pub struct Bells {
    bells: [Parker; BELLS],
}

impl Bells {
    pub fn new() -> Bells {
        Bells {
            bells: array::from_fn(|_| Parker::new()),
        }
    }

    fn of(&self, ticket: u64) -> &Parker {
        &self.bells[(ticket % BELLS as u64) as usize]
    }

    // Sleeps until the ticket's bell rings. It may have rung before, also for an earlier ticket, so whoever wakes looks again.
    pub fn sleep<R: Wait>(&self, rt: &R, ticket: u64) {
        self.of(ticket).park(rt);
    }

    // Wakes the one who has the ticket, where it sleeps.
    pub fn ring(&self, ticket: u64) {
        self.of(ticket).unpark();
    }
}
