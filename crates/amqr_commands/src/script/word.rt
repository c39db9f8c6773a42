//! The words of a line.
ghost use Rattle.std.specs.Prelude.{◌≡◌, ◌<◌, ◌∷◌, [], MatchOption, IfOk};
ghost use Rattle.amqr_commands.specs.Words.{cut_at, number_of, bytes_of};
ghost use Rattle.amqr_commands.specs.Cut.{parts};

use amqp_model::Binary;
use hex::FromHexError;
use std::alloc::{AllocError, Global};

/// The text before the first such mark and, if there is one, the text after it.
pub(crate) fn cut(text: &str, mark: char) -> (&str, Option<&str>)
    requires { mark < 128 }
    ensures { cut_at mark text.now ≡ parts mark result }
{
    match text.split_once(mark) {
        None => (text, None),
        Some((first, behind)) => (first, Some(behind)),
    }
}

/// The number that a word is: decimal digits, up to 2^64 - 1.
pub(crate) fn number(word: &str) -> Option<u64>
    ensures { result ≡ number_of word.now }
{
    if word.starts_with('+') {
        return None;
    }
    word.parse().ok()
}

/// The bytes that a word is: one or more pairs of hexadecimal digits of either case.
#[tactic(auto, unfolding(crate::specs::Words::bytes_of))]
pub(crate) fn bytes(alloc: Global, word: &str) -> Result<Option<Binary>, AllocError>
    ensures { IfOk result (λ read. read ≡ bytes_of word.now) }
{
    if word.is_empty() {
        return Ok(None);
    }
    match hex::decode(alloc, word) {
        Ok(bytes) => Ok(Some(Binary::new(bytes))),
        Err(FromHexError::OutOfMemory) => Err(AllocError),
        Err(_) => Ok(None),
    }
}
