//! Case files: questions, each with its input and the answer that is wanted. `docs/cases.md` describes the form.
use crate::fault::CaseFault;
use crate::text::put_input;
use std::alloc::Global;

/// A question, its input, and the answer that is wanted.
#[derive(Drop)]
pub struct Case<'a> {
    /// The line of the question in its file, from 1.
    pub line: usize,
    /// Whether it begins a scene: nothing is kept from the questions before it.
    pub begins: bool,
    /// What is asked.
    pub question: &'a str,
    /// The words after the question.
    pub words: &'a str,
    /// The lines of input, each with its mark.
    pub input: Vec<&'a str>,
    /// The lines of the answer that is wanted.
    pub wanted: Vec<&'a str>,
}

impl<'a> Case<'a> {
    /// The case of a line: `QUESTION WORDS`, and ` => ANSWER` where the answer has one line.
    fn of(alloc: Global, line: usize, begins: bool, text: &'a str) -> Result<Case<'a>, CaseFault> {
        let mut wanted = Vec::new(alloc);
        let asked = match text.split_once(" =>") {
            None => text,
            Some((asked, answer)) => {
                wanted.push(answer.strip_prefix(' ').unwrap_or(answer))?;
                asked
            }
        };
        let (question, words) = asked.split_once(' ').unwrap_or((asked, ""));
        Ok(Case {
            line,
            begins,
            question,
            words,
            input: Vec::new(alloc),
            wanted,
        })
    }

    /// The bytes of the input: the words, and after them its lines.
    ///
    /// # Errors
    ///
    /// `Escape` and `Word` where a line isn't in the form of `docs/cases.md`; `Memory`.
    pub fn input_bytes(&self, alloc: Global) -> Result<Vec<u8>, CaseFault> {
        let mut bytes = Vec::new(alloc);
        put_input(alloc, &mut bytes, self.words, self.input.as_slice())?;
        Ok(bytes)
    }

    /// The text of the input.
    ///
    /// # Errors
    ///
    /// As `input_bytes`, and `Text` where it isn't UTF-8.
    pub fn input_text(&self, alloc: Global) -> Result<String, CaseFault> {
        let bytes = self.input_bytes(alloc)?;
        String::from_utf8(bytes).or(Err(CaseFault::Text))
    }

    /// The bytes of the lines of input, without the words.
    ///
    /// # Errors
    ///
    /// As `input_bytes`.
    pub fn lines_bytes(&self, alloc: Global) -> Result<Vec<u8>, CaseFault> {
        let mut bytes = Vec::new(alloc);
        put_input(alloc, &mut bytes, "", self.input.as_slice())?;
        Ok(bytes)
    }

    /// The text of the lines of input, without the words.
    ///
    /// # Errors
    ///
    /// As `input_text`.
    pub fn lines_text(&self, alloc: Global) -> Result<String, CaseFault> {
        let bytes = self.lines_bytes(alloc)?;
        String::from_utf8(bytes).or(Err(CaseFault::Text))
    }

    /// The answer that is wanted, its lines separated by LF.
    pub fn wanted_text(&self, alloc: Global) -> Result<String, CaseFault> {
        let mut text = String::new(alloc);
        for (at, line) in self.wanted.iter().enumerate() {
            if at > 0 {
                text.push('\n')?;
            }
            text.push_str(line)?;
        }
        Ok(text)
    }
}

/// The cases of a file.
///
/// # Errors
///
/// `Stray` where a line of input or of an answer comes before any question; `Memory`.
pub fn read_cases<'a>(alloc: Global, text: &'a str) -> Result<Vec<Case<'a>>, CaseFault> {
    let mut cases = Vec::new(alloc);
    let mut begins = true;
    for (above, line) in text.lines().enumerate() {
        if line.is_empty() {
            begins = true;
        } else if line.starts_with(['>', '*', '|']) {
            add_line(cases.last_mut(), line)?;
        } else if !line.starts_with('#') {
            cases.push(Case::of(alloc, above.wrapping_add(1), begins, line)?)?;
            begins = false;
        }
    }
    Ok(cases)
}

/// Adds a line of input, or one of the answer, to the last case.
fn add_line<'a>(case: Option<&mut Case<'a>>, line: &'a str) -> Result<(), CaseFault> {
    let Some(case) = case else {
        return Err(CaseFault::Stray);
    };
    match line.strip_prefix('|') {
        None => case.input.push(line)?,
        Some(answer) => case
            .wanted
            .push(answer.strip_prefix(' ').unwrap_or(answer))?,
    }
    Ok(())
}
