//! When a heartbeat is due.
ghost use Rattle.std.specs.Prelude.{◌≡◌};
ghost use Rattle.amqp_conn.specs.Heartbeats.{is_due};

/// What decides when a heartbeat is due (AMQP 1.0 part 2, section 2.4.5). All times are milliseconds since one moment.
#[derive(Clone, Copy, Debug, PartialEq, Eq)]
pub struct Heartbeat {
    /// The peer's idle-time-out, from its open; none where its open has none.
    pub idle_time_out: Option<u32>,
    /// When the last frame was written.
    pub written: u64,
}

impl Heartbeat {
    /// Whether a heartbeat is due: half of the peer's idle-time-out has passed since the last frame, or more, and the
    /// peer's idle-time-out is above 0. Half is rounded down; if the clock was set back, no time has passed.
    pub fn tick(self, now: u64) -> bool
        ensures { result ≡ is_due self.idle_time_out self.written now }
    {
        match self.idle_time_out {
            None => false,
            Some(idle) => {
                let half = u64::from(idle) / 2;
                idle > 0 && half <= now.saturating_sub(self.written)
            }
        }
    }
}
