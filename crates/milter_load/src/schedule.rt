//! When the messages of a load are due.

/// The microseconds of a second.
pub(crate) const SECOND: u64 = 1_000_000;

/// When the messages of a load are due: each as soon as a connection has none, or by a rate.
#[derive(Clone, Copy)]
pub struct Schedule {
    // Messages a second; 0 where there is no rate.
    rate: u64,
    // How many there are.
    messages: u64,
    begun: u64,
    // When the first one is due, once that is known.
    start: Option<u64>,
}

impl Schedule {
    /// So many messages a second, or each as soon as can be where `rate` is 0; no more than `messages` of them, or any
    /// number where that is 0. None is due before [`Schedule::start`]. Doesn't allocate.
    pub fn new(rate: u32, messages: u64) -> Schedule {
        Schedule {
            rate: u64::from(rate),
            messages: match messages {
                0 => u64::MAX,
                messages => messages,
            },
            begun: 0,
            start: None,
        }
    }

    /// The first message is due at this time. Doesn't allocate.
    pub fn start(&mut self, now: u64) {
        self.start = Some(now);
    }

    /// When the first message was due; none before it is known. Doesn't allocate.
    pub fn started(&self) -> Option<u64> {
        self.start
    }

    /// How many messages were begun. Doesn't allocate.
    pub fn begun(&self) -> u64 {
        self.begun
    }

    /// Whether no more messages are begun. Doesn't allocate.
    pub fn is_over(&self) -> bool {
        self.begun >= self.messages
    }

    /// No more messages are begun. Doesn't allocate.
    pub fn stop(&mut self) {
        self.messages = self.begun;
    }

    /// When the next message is due, where there is one: at once without a rate. Doesn't allocate.
    pub fn next_due(&self) -> Option<u64> {
        if self.is_over() {
            return None;
        }
        let start = self.start?;
        Some(match self.rate {
            0 => start,
            rate => start.saturating_add(due_after(self.begun, rate)),
        })
    }

    /// Begins the next message, where one is due at this time, and answers when it was due: now without a rate.
    /// Doesn't allocate.
    pub fn begin(&mut self, now: u64) -> Option<u64> {
        let due = self.next_due()?;
        if due > now {
            return None;
        }
        self.begun = self.begun.saturating_add(1);
        Some(match self.rate {
            0 => now,
            _ => due,
        })
    }

    /// How many messages were due by a rate until this time, and not begun. Doesn't allocate.
    pub fn waiting(&self, now: u64) -> u64 {
        let (Some(start), false) = (self.start, self.rate == 0) else {
            return 0;
        };
        due_within(now.saturating_sub(start), self.rate)
            .min(self.messages)
            .saturating_sub(self.begun)
    }
}

/// How long after the first message the one with this number, from 0, is due by a rate.
fn due_after(number: u64, rate: u64) -> u64 {
    let seconds = number.checked_div(rate).unwrap_or(0);
    let rest = number.checked_rem(rate).unwrap_or(0);
    let micros = rest.saturating_mul(SECOND).checked_div(rate).unwrap_or(0);
    seconds.saturating_mul(SECOND).saturating_add(micros)
}

/// How many messages are due by a rate within so many microseconds of the first one, which is one of them.
fn due_within(micros: u64, rate: u64) -> u64 {
    let whole = (micros / SECOND).saturating_mul(rate);
    let rest = (micros % SECOND).saturating_mul(rate) / SECOND;
    whole.saturating_add(rest).saturating_add(1)
}
