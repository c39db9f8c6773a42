//! What the router's error conditions mean, in words.

/// A sentence for an error condition that the router sends. Where a condition has several reasons, it is true of each of them.
pub fn sentence(condition: &str) -> &'static str {
    match condition {
        "amqp:not-allowed" => {
            "the peer may not do this, or the durable link of this name has another address"
        }
        "amqp:connection:framing-error" => {
            "the peer sent what is no frame, a second header, or a channel or handle that is too high"
        }
        "amqp:decode-error" => "the peer sent a frame whose body can't be read",
        "amqp:resource-limit-exceeded" => "a limit is exceeded, or the journal is full",
        "amqp:not-implemented" => "this isn't served yet: see docs/rows.md",
        "amqp:session:unattached-handle" => "the peer named a handle without a link",
        "amqp:session:handle-in-use" => "the peer attached a link on the handle of another",
        "amqp:session:window-violation" => {
            "the peer sent more transfers than the session's window allows"
        }
        "amqp:not-found" => "the link names no address",
        "amqp:frame-size-too-small" => {
            "the router's answer doesn't fit the frames that the peer accepts"
        }
        "amqp:link:stolen" => { "another link of the same name, container and user took its place" }
        "amqp:link:transfer-limit-exceeded" => "the peer began a delivery without credit",
        "amqp:link:message-size-exceeded" => {
            "the peer sent a message that is larger than the router takes"
        }
        _ => "see docs/rows.md",
    }
}
