//! Questions on the delivery-ids of a routed link: which deliveries they name, on either end.
use case_files::{Case, CaseFault, number_of};
use route_links::{Ids, ReceiverId, SenderId, StartNumber};
use std::alloc::Global;
use std::str::Split;

/// What is asked in a scene.
#[derive(Clone, Copy)]
enum Question {
    /// A delivery comes from the sender under this id: its number.
    Came,
    /// A delivery comes that is settled: its number.
    CameSettled,
    /// The next one goes to the receiver under this id.
    Goes,
    /// This delivery is settled.
    Settled,
    /// A disposition of this delivery is held.
    Held,
    /// It goes out.
    Told,
    /// The sender's detach comes, and is held.
    Leaves,
    /// A detach goes out.
    Ended,
    /// Whether an id of the sender is in use.
    Claimed,
    /// The deliveries that the sender means by ids: from the first to the last.
    Sender,
    /// Those that the receiver means.
    Receiver,
    /// The ids of this delivery.
    Ids,
}

/// The question of a case.
fn question_of(case: &Case<'_>) -> Result<Question, CaseFault> {
    match case.question {
        "came" => Ok(Question::Came),
        "came_settled" => Ok(Question::CameSettled),
        "goes" => Ok(Question::Goes),
        "settled" => Ok(Question::Settled),
        "held" => Ok(Question::Held),
        "told" => Ok(Question::Told),
        "leaves" => Ok(Question::Leaves),
        "ended" => Ok(Question::Ended),
        "claimed" => Ok(Question::Claimed),
        "sender" => Ok(Question::Sender),
        "receiver" => Ok(Question::Receiver),
        "ids" => Ok(Question::Ids),
        _ => Err(CaseFault::Question),
    }
}

/// The answer to a question on the ids of the scene's link.
///
/// # Errors
///
/// `Question` and `Word` where the case isn't in the form; `Memory`.
pub fn answer(alloc: Global, ids: &mut Ids, case: &Case<'_>) -> Result<String, CaseFault> {
    let mut words = case.words.split(' ');
    match question_of(case)? {
        Question::Came => number_text(alloc, ids.start(SenderId(id_of(words.next())?))?),
        Question::CameSettled => number_text(alloc, ids.start_settled()?),
        Question::Goes => {
            ids.go(ReceiverId(id_of(words.next())?))?;
            Ok(String::new(alloc))
        }
        Question::Settled => {
            ids.settle(StartNumber(number_of(words.next())?));
            Ok(String::new(alloc))
        }
        Question::Held => {
            ids.hold(StartNumber(number_of(words.next())?))?;
            Ok(String::new(alloc))
        }
        Question::Told => {
            ids.tell(StartNumber(number_of(words.next())?));
            Ok(String::new(alloc))
        }
        Question::Leaves => {
            ids.leave();
            Ok(String::new(alloc))
        }
        Question::Ended => {
            ids.end(alloc);
            Ok(String::new(alloc))
        }
        question => told(alloc, ids, question, &mut words),
    }
}

/// The answer to a question that changes nothing.
fn told(
    alloc: Global,
    ids: &Ids,
    question: Question,
    words: &mut Split<'_, char>,
) -> Result<String, CaseFault> {
    let first = id_of(words.next())?;
    match question {
        Question::Claimed => {
            let claimed = if ids.is_claimed(SenderId(first)) {
                "yes"
            } else {
                "no"
            };
            Ok(String::from_str(alloc, claimed)?)
        }
        Question::Sender => {
            let last = SenderId(id_of(words.next())?);
            let numbers = ids.numbers_in(alloc, SenderId(first), last)?;
            numbers_text(alloc, numbers.as_slice())
        }
        Question::Receiver => {
            let last = ReceiverId(id_of(words.next())?);
            let numbers = ids.numbers_out(alloc, ReceiverId(first), last)?;
            numbers_text(alloc, numbers.as_slice())
        }
        _ => ids_text(alloc, ids, StartNumber(u64::from(first))),
    }
}

/// A delivery-id.
fn id_of(word: Option<&str>) -> Result<u32, CaseFault> {
    u32::try_from(number_of(word)?).map_err(|_| CaseFault::Word)
}

/// The number of a delivery.
fn number_text(alloc: Global, number: StartNumber) -> Result<String, CaseFault> {
    numbers_text(alloc, &[number])
}

/// The numbers of deliveries.
fn numbers_text(alloc: Global, numbers: &[StartNumber]) -> Result<String, CaseFault> {
    let mut text = String::new(alloc);
    for number in numbers {
        if !text.is_empty() {
            text.push(' ')?;
        }
        let number = number.0;
        write!(text, "{number}")?;
    }
    Ok(text)
}

/// The ids of a delivery: that of the sender, and that of the receiver, or `-`.
fn ids_text(alloc: Global, ids: &Ids, number: StartNumber) -> Result<String, CaseFault> {
    let Some(SenderId(came)) = ids.id_in(number) else {
        return Ok(String::from_str(alloc, "none")?);
    };
    match ids.id_out(number) {
        None => Ok(format!(in alloc; "{came} -")?),
        Some(ReceiverId(went)) => Ok(format!(in alloc; "{came} {went}")?),
    }
}
