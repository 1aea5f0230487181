//! Counts of what was sent, delivered, signalled and accepted.
ghost use Rattle.std.specs.Prelude.{◌≡◌, ℕ, ◌+◌, ◌-◌, ◌^◌, leb, false};
ghost use Rattle.shard_store.specs.Tallies.{more_sent, more_delivered, more_signalled, more_accepted, together};

/// Counts of events. A counter stops at 2^64 - 1, and then the tally is full.
#[derive(Clone, Copy, Debug, PartialEq, Eq)]
pub struct Tally {
    /// How often a token became a message, the opening's included.
    pub sent: u64,
    /// How many messages were handled.
    pub delivered: u64,
    /// How often a token became a signal.
    pub signalled: u64,
    /// How many signals were handled.
    pub accepted: u64,
    /// A counter has reached 2^64 - 1, and may have stopped there.
    pub full: bool,
}

impl Tally {
    /// Nothing was counted.
    pub fn new() -> Tally
        ensures { result ≡ record {
          sent = 0;
          delivered = 0;
          signalled = 0;
          accepted = 0;
          full = false;
        } }
    {
        Tally {
            sent: 0,
            delivered: 0,
            signalled: 0,
            accepted: 0,
            full: false,
        }
    }

    /// Counts this many more messages as sent.
    pub fn add_sent(&mut self, count: u64)
        ensures { self.new ≡ more_sent count self.old }
    {
        self.full = self.full || reaches_top(self.sent, count);
        self.sent = self.sent.saturating_add(count);
    }

    /// Counts this many more messages as handled.
    pub fn add_delivered(&mut self, count: u64)
        ensures { self.new ≡ more_delivered count self.old }
    {
        self.full = self.full || reaches_top(self.delivered, count);
        self.delivered = self.delivered.saturating_add(count);
    }

    /// Counts this many more signals as made.
    pub fn add_signalled(&mut self, count: u64)
        ensures { self.new ≡ more_signalled count self.old }
    {
        self.full = self.full || reaches_top(self.signalled, count);
        self.signalled = self.signalled.saturating_add(count);
    }

    /// Counts this many more signals as handled.
    pub fn add_accepted(&mut self, count: u64)
        ensures { self.new ≡ more_accepted count self.old }
    {
        self.full = self.full || reaches_top(self.accepted, count);
        self.accepted = self.accepted.saturating_add(count);
    }

    /// Counts here all that another tally counted.
    pub fn add(&mut self, other: &Tally)
        ensures { self.new ≡ together other.now self.old }
    {
        self.add_sent(other.sent);
        self.add_delivered(other.delivered);
        self.add_signalled(other.signalled);
        self.add_accepted(other.accepted);
        self.full = self.full || other.full;
    }
}

/// Whether the sum is at the counter's top or would be beyond it.
fn reaches_top(counter: u64, count: u64) -> bool
    ensures { result ≡ leb (2 ^ 64 - 1) (counter + count) }
{
    count >= u64::MAX - counter
}
