//! Questions on what the program does: scripts, listings, journals, and its arguments.
use amqr_commands::{Status, format_twin, list, list_journal, play_text, run, summarize_journal};
use case_files::{Case, CaseFault, Scene, bytes_of, digits_of, number_of};
use disk_core::{CrashTwin, FuseTwin, MemTwin, Side};
use route_table::Config;
use std::alloc::Global;
use std::fmt::Write;
use std::fs;

/// Two files in memory that can be made to fail.
type Twin = FuseTwin<MemTwin>;

/// What the program does; only files are kept between questions.
#[derive(Clone, Copy)]
pub struct Scripts;

impl Scene for Scripts {
    fn begin(_alloc: Global, ending: &str) -> Option<Scripts> {
        match ending {
            "scripts" => Some(Scripts),
            _ => None,
        }
    }

    fn answer(&mut self, rt: &HostRuntime, case: &Case<'_>) -> Result<String, CaseFault> {
        let alloc = rt.alloc();
        match question_of(case)? {
            Question::Play => play(alloc, case),
            Question::Frames => frames(alloc, case.words),
            Question::Journal => journal(alloc, case.words),
            Question::Summary => summary(alloc, case.words),
            Question::Format => formatted(alloc, case.words),
            Question::File => file(rt, case),
            Question::Run => ran(rt, case),
            Question::Shows => shows(rt, case),
        }
    }
}

/// What is asked.
#[derive(Clone, Copy)]
enum Question {
    /// To play the input as a script.
    Play,
    /// To list the frames of bytes.
    Frames,
    /// To list the journal on two files with these bytes.
    Journal,
    /// To tell the journal on two files with these bytes in short.
    Summary,
    /// To make a journal on two files with these bytes.
    Format,
    /// To put the input into a file.
    File,
    /// To run the program with these arguments.
    Run,
    /// Whether the program, run with these arguments, prints each of the input's lines.
    Shows,
}

/// The question of a case.
fn question_of(case: &Case<'_>) -> Result<Question, CaseFault> {
    match case.question {
        "play" => Ok(Question::Play),
        "frames" => Ok(Question::Frames),
        "journal" => Ok(Question::Journal),
        "summary" => Ok(Question::Summary),
        "format" => Ok(Question::Format),
        "file" => Ok(Question::File),
        "run" => Ok(Question::Run),
        "shows" => Ok(Question::Shows),
        _ => Err(CaseFault::Question),
    }
}

/// What was printed, and the status where it isn't 0.
fn answer_of(printed: Vec<u8>, status: Status) -> Result<String, CaseFault> {
    let mut text = String::from_utf8(printed).or(Err(CaseFault::Text))?;
    let code = status.code();
    if code > 0 {
        writeln!(text, "status {code}")?;
    }
    Ok(text)
}

/// Plays a script.
fn play(alloc: Global, case: &Case<'_>) -> Result<String, CaseFault> {
    let script = case.input_bytes(alloc)?;
    let mut printed = Vec::new(alloc);
    let config = Config::standard(alloc)?;
    let status = play_text(alloc, config, script.as_slice(), &mut printed)?;
    answer_of(printed, status)
}

/// Lists the frames of bytes.
fn frames(alloc: Global, words: &str) -> Result<String, CaseFault> {
    let stream = bytes_of(alloc, words)?;
    let mut printed = Vec::new(alloc);
    let status = list(alloc, stream.as_slice(), &mut printed)?;
    answer_of(printed, status)
}

/// Two files with these bytes, where each call after a number of calls fails: `FIRST SECOND CALLS`, or `FIRST SECOND` where none does.
fn twin_of(alloc: Global, words: &str) -> Result<Twin, CaseFault> {
    let (first, rest) = words.split_once(' ').ok_or(CaseFault::Word)?;
    let (second, calls) = match rest.split_once(' ') {
        None => (rest, None),
        Some((second, calls)) => (second, Some(number_of(Some(calls))?)),
    };
    let first = bytes_of(alloc, first)?;
    let second = bytes_of(alloc, second)?;
    let mut twin = FuseTwin::new(MemTwin::holding(alloc, first, second)?);
    if let Some(calls) = calls {
        CrashTwin::fuse(&mut twin, calls);
    }
    Ok(twin)
}

/// Lists the journal on the files that words tell.
fn journal(alloc: Global, words: &str) -> Result<String, CaseFault> {
    let mut twin = twin_of(alloc, words)?;
    let answer = listed(alloc, &mut twin);
    drop(twin);
    answer
}

/// Lists the journal on two files.
fn listed(alloc: Global, twin: &mut Twin) -> Result<String, CaseFault> {
    let mut printed = Vec::new(alloc);
    let status = list_journal(alloc, twin, &mut printed)?;
    answer_of(printed, status)
}

/// Tells the journal on the files that words tell in short.
fn summary(alloc: Global, words: &str) -> Result<String, CaseFault> {
    let mut twin = twin_of(alloc, words)?;
    let answer = summarized(alloc, &mut twin);
    drop(twin);
    answer
}

/// Tells the journal on two files in short.
fn summarized(alloc: Global, twin: &mut Twin) -> Result<String, CaseFault> {
    let mut printed = Vec::new(alloc);
    let status = summarize_journal(alloc, twin, &mut printed)?;
    answer_of(printed, status)
}

/// Makes a journal on the files that words tell: what is printed, and the bytes that they have then.
fn formatted(alloc: Global, words: &str) -> Result<String, CaseFault> {
    let mut twin = twin_of(alloc, words)?;
    let made = made(alloc, &mut twin);
    let left = twin.into_inner();
    let bytes = both(alloc, &left);
    drop(left);
    let mut text = made?;
    let bytes = bytes?;
    writeln!(text, "files {bytes}")?;
    Ok(text)
}

/// The bytes of two files.
fn both(alloc: Global, twin: &MemTwin) -> Result<String, CaseFault> {
    let first = digits_of(alloc, twin.bytes(Side::First))?;
    let second = digits_of(alloc, twin.bytes(Side::Second))?;
    Ok(format!(in alloc; "{first} {second}")?)
}

/// Makes a journal on two files.
fn made(alloc: Global, twin: &mut Twin) -> Result<String, CaseFault> {
    let mut printed = Vec::new(alloc);
    let status = format_twin(twin, &mut printed)?;
    answer_of(printed, status)
}

/// Puts the lines of input into a file of this name.
fn file(rt: &HostRuntime, case: &Case<'_>) -> Result<String, CaseFault> {
    let bytes = case.lines_bytes(rt.alloc())?;
    fs::write(rt, case.words, bytes.as_slice())?;
    Ok(String::new(rt.alloc()))
}

/// Runs the program with these arguments, whose input is the text `hello`.
fn run_words(
    rt: &HostRuntime,
    words: &str,
    printed: &mut Vec<u8>,
    errors: &mut Vec<u8>,
) -> Result<Status, CaseFault> {
    let mut parts = vec![in rt.alloc(); "amqr"]?;
    for word in words.split(' ') {
        if !word.is_empty() {
            parts.push(word)?;
        }
    }
    let mut input = b"hello\n".as_slice();
    Ok(run(rt, parts.as_slice(), &mut input, printed, errors)?)
}

/// What the program prints with these arguments, `errors` where it writes to its errors, and the status.
fn ran(rt: &HostRuntime, case: &Case<'_>) -> Result<String, CaseFault> {
    let mut printed = Vec::new(rt.alloc());
    let mut errors = Vec::new(rt.alloc());
    let status = run_words(rt, case.words, &mut printed, &mut errors)?;
    if !errors.is_empty() {
        printed.extend_from_slice(b"errors\n")?;
    }
    answer_of(printed, status)
}

/// The lines of input that aren't in what the program prints with these arguments.
fn shows(rt: &HostRuntime, case: &Case<'_>) -> Result<String, CaseFault> {
    let mut printed = Vec::new(rt.alloc());
    let mut errors = Vec::new(rt.alloc());
    let status = run_words(rt, case.words, &mut printed, &mut errors)?;
    let text = answer_of(printed, status)?;
    let wanted = case.lines_text(rt.alloc())?;
    missing_in(rt.alloc(), text.as_str(), wanted.as_str())
}

/// The lines that aren't in a text.
fn missing_in(alloc: Global, text: &str, lines: &str) -> Result<String, CaseFault> {
    let mut missing = String::new(alloc);
    for line in lines.lines() {
        if !text.contains(line) {
            writeln!(missing, "{line}")?;
        }
    }
    Ok(missing)
}
