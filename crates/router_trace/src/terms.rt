//! What a peer's open says of its end of the connection.
ghost use Rattle.std.specs.Prelude.{◌≡◌};
ghost use Rattle.router_trace.specs.Clocks.{terms_of};

use amqp_model::Open;

/// What a peer's open says of its end of the connection (AMQP 1.0 part 2, section 2.7.1).
#[derive(Clone, Copy, Debug, PartialEq, Eq)]
pub struct Terms {
    /// The highest channel that the peer accepts.
    pub channel_max: u16,
    /// The peer's idle time-out in milliseconds; none if it has none.
    pub idle_time_out: Option<u32>,
}

impl Terms {
    /// What an open says.
    pub fn of(open: &Open) -> Terms
        ensures { result ≡ terms_of «open».now }
    {
        Terms {
            channel_max: open.channel_max,
            idle_time_out: open.idle_time_out,
        }
    }
}
