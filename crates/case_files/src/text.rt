//! Text and bytes as case files write them.
use crate::fault::CaseFault;
use std::alloc::Global;
use std::fmt::Write;

/// The bytes of words of hexadecimal digits: parts joined by `+` or on lines of their own, each `HEX` or `HEX*TIMES`;
/// `-` is none.
///
/// # Errors
///
/// `Bytes` where a part isn't pairs of hexadecimal digits, or its times is no number; `Memory`.
pub fn bytes_of(alloc: Global, words: &str) -> Result<Vec<u8>, CaseFault> {
    let mut bytes = Vec::new(alloc);
    for part in words.split(['+', '\n']) {
        let part = if part == "-" { "" } else { part };
        let (digits, times) = part.split_once('*').unwrap_or((part, "1"));
        put_times(alloc, &mut bytes, digits, times)?;
    }
    Ok(bytes)
}

/// Appends the bytes of these digits a number of times.
fn put_times(alloc: Global, out: &mut Vec<u8>, digits: &str, times: &str) -> Result<(), CaseFault> {
    let bytes = hex::decode(alloc, digits).or(Err(CaseFault::Bytes))?;
    let times = times.parse::<u32>().or(Err(CaseFault::Bytes))?;
    for _ in 0..times {
        out.extend_from_slice(bytes.as_slice())?;
    }
    Ok(())
}

/// The hexadecimal digits of bytes; `-` for none.
///
/// # Errors
///
/// `Memory`.
pub fn digits_of(alloc: Global, bytes: &[u8]) -> Result<String, CaseFault> {
    if bytes.is_empty() {
        return Ok(String::from_str(alloc, "-")?);
    }
    Ok(hex::encode_upper(alloc, bytes)?)
}

/// `fault N`, where N is a fault's number.
///
/// # Errors
///
/// `Memory`.
pub fn fault_number(alloc: Global, number: u8) -> Result<String, CaseFault> {
    Ok(format!(in alloc; "fault {number}")?)
}

/// The number that a word is.
///
/// # Errors
///
/// `Word` where there is none or it is no number.
pub fn number_of(word: Option<&str>) -> Result<u64, CaseFault> {
    match word {
        None => Err(CaseFault::Word),
        Some(word) => word.parse::<u64>().or(Err(CaseFault::Word)),
    }
}

/// The number that a word is, as a length or a place.
///
/// # Errors
///
/// `Word` where there is none or it is no number.
pub fn size_of(word: Option<&str>) -> Result<usize, CaseFault> {
    match word {
        None => Err(CaseFault::Word),
        Some(word) => word.parse::<usize>().or(Err(CaseFault::Word)),
    }
}

/// Appends the words of a question, and after them its lines of input: `> TEXT` is the text and an LF, `* TIMES TEXT` the
/// text repeated TIMES times, where `{}` is the repetition's number, from 0, and `{x}` the same in two hexadecimal digits.
/// TIMES may be `FROM..TO`; the number is then from FROM, and TO is excluded.
pub fn put_input(
    alloc: Global,
    out: &mut Vec<u8>,
    words: &str,
    lines: &[&str],
) -> Result<(), CaseFault> {
    put_text(alloc, out, words)?;
    for line in lines {
        match line.strip_prefix("* ") {
            Some(rest) => put_repeated(alloc, out, rest)?,
            None => {
                let text = line.strip_prefix('>').unwrap_or(line);
                put_text(alloc, out, text.strip_prefix(' ').unwrap_or(text))?;
                out.push(b'\n')?;
            }
        }
    }
    Ok(())
}

/// Appends a text repeatedly: `TIMES TEXT`, or `FROM..TO TEXT`.
fn put_repeated(alloc: Global, out: &mut Vec<u8>, rest: &str) -> Result<(), CaseFault> {
    let (times, text) = rest.split_once(' ').ok_or(CaseFault::Word)?;
    let (from, to) = times.split_once("..").unwrap_or(("0", times));
    for time in number_of(Some(from))?..number_of(Some(to))? {
        let counted = counted(alloc, text, time)?;
        put_text(alloc, out, counted.as_str())?;
    }
    Ok(())
}

/// A text with the repetition's number in place of `{}` and `{x}`.
fn counted(alloc: Global, text: &str, time: u64) -> Result<String, CaseFault> {
    let mut counted = String::new(alloc);
    for (at, part) in text.split("{}").enumerate() {
        if at > 0 {
            write!(counted, "{time}")?;
        }
        for (inside, plain) in part.split("{x}").enumerate() {
            if inside > 0 {
                write!(counted, "{time:02X}")?;
            }
            counted.push_str(plain)?;
        }
    }
    Ok(counted)
}

/// Appends a text: `\n`, `\r` and `\t` are LF, CR and tab, and `\xHH` is a byte.
fn put_text(alloc: Global, out: &mut Vec<u8>, text: &str) -> Result<(), CaseFault> {
    for (at, part) in text.split('\\').enumerate() {
        if at == 0 {
            out.extend_from_slice(part.as_bytes())?;
        } else {
            put_escaped(alloc, out, part.as_bytes())?;
        }
    }
    Ok(())
}

/// Appends what a backslash and these bytes stand for.
fn put_escaped(alloc: Global, out: &mut Vec<u8>, behind: &[u8]) -> Result<(), CaseFault> {
    match behind {
        [b'n', rest @ ..] => put_both(out, b'\n', rest),
        [b'r', rest @ ..] => put_both(out, b'\r', rest),
        [b't', rest @ ..] => put_both(out, b'\t', rest),
        [b'x', high, low, rest @ ..] => {
            let byte = hex::decode(alloc, &[*high, *low]).or(Err(CaseFault::Escape))?;
            out.extend_from_slice(byte.as_slice())?;
            Ok(out.extend_from_slice(rest)?)
        }
        _ => Err(CaseFault::Escape),
    }
}

/// Appends a byte and the bytes after it.
fn put_both(out: &mut Vec<u8>, byte: u8, rest: &[u8]) -> Result<(), CaseFault> {
    out.push(byte)?;
    Ok(out.extend_from_slice(rest)?)
}
