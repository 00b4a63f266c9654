//! Busy polling.

/// For how many microseconds after an event the sockets are polled without a wait.
const SPIN: u64 = 50;
/// The most that is counted of how often an event came within that time.
const CREDIT_MAX: u32 = 64;

/// Whether the sockets are polled without a wait for a moment. To be woken takes as long as many filters take for a
/// reply, and costs as much as several polls. It goes on as long as events come within that moment.
#[derive(Clone, Copy)]
pub(crate) struct Spin {
    // Until when the sockets are polled without a wait; 0 where they are not.
    until: u64,
    // How often an event came within that time, halved each time that none did.
    credit: u32,
}

impl Spin {
    /// None until there is an event.
    pub(crate) fn new() -> Self {
        Spin {
            until: 0,
            credit: 1,
        }
    }

    /// Allows one more try.
    pub(crate) fn allow(&mut self) {
        self.credit = self.credit.max(1);
    }

    /// Notes that an event came, and what it took was done by this time.
    pub(crate) fn on_event(&mut self, now: u64) {
        if self.until > 0 {
            self.credit = self.credit.saturating_add(1).min(CREDIT_MAX);
        }
        self.until = if self.credit > 0 {
            now.saturating_add(SPIN)
        } else {
            0
        };
    }

    /// Whether the next poll, at this time, is without a wait.
    pub(crate) fn is_on(&mut self, now: u64) -> bool {
        if now < self.until {
            return true;
        }
        if self.until > 0 {
            self.until = 0;
            self.credit /= 2;
        }
        false
    }
}
