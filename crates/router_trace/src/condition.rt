//! The error conditions that the router sends.
ghost use Rattle.std.specs.Prelude.{◌≡◌};
ghost use Rattle.router_trace.specs.Frames.{text_of};

/// An error condition (AMQP 1.0 part 2, sections 2.8.15 to 2.8.18).
#[derive(Clone, Copy, Debug, PartialEq, Eq)]
pub enum Condition {
    /// The peer did something that it may not do.
    NotAllowed,
    /// The bytes received are not a frame.
    FramingError,
    /// A frame's body can't be decoded.
    DecodeError,
    /// The peer asks for more than a limit allows.
    ResourceLimitExceeded,
    /// The peer asks for something that the router doesn't implement.
    NotImplemented,
    /// A frame names a handle on which no link is attached.
    UnattachedHandle,
    /// An attach names a handle on which a link is already attached.
    HandleInUse,
    /// A transfer was received that the session's incoming window doesn't allow.
    WindowViolation,
    /// The node doesn't exist.
    NotFound,
    /// A frame is larger than the peer accepts.
    FrameSizeTooSmall,
    /// Another link with the same key was attached.
    Stolen,
    /// A delivery was started without link credit.
    TransferLimitExceeded,
    /// A message is larger than the router accepts.
    MessageSizeExceeded,
}

impl Condition {
    /// The condition's symbol.
    pub fn text(self) -> &'static str
        ensures { result.now ≡ text_of self }
    {
        match self {
            Condition::NotAllowed => "amqp:not-allowed",
            Condition::FramingError => "amqp:connection:framing-error",
            Condition::DecodeError => "amqp:decode-error",
            Condition::ResourceLimitExceeded => "amqp:resource-limit-exceeded",
            Condition::NotImplemented => "amqp:not-implemented",
            Condition::UnattachedHandle => "amqp:session:unattached-handle",
            Condition::HandleInUse => "amqp:session:handle-in-use",
            Condition::WindowViolation => "amqp:session:window-violation",
            Condition::NotFound => "amqp:not-found",
            Condition::FrameSizeTooSmall => "amqp:frame-size-too-small",
            Condition::Stolen => "amqp:link:stolen",
            Condition::TransferLimitExceeded => "amqp:link:transfer-limit-exceeded",
            Condition::MessageSizeExceeded => "amqp:link:message-size-exceeded",
        }
    }
}
