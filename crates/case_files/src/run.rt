//! Runs case files: asks their questions, and prints where an answer differs.
use crate::case::{Case, read_cases};
use crate::fault::CaseFault;
use std::alloc::Global;
use std::{env, fs, mem};

/// What the questions after an empty line are about, until the next one.
pub trait Scene: Drop {
    /// The scene before any question of a file with this ending; `None` if it is no file of cases.
    fn begin(alloc: Global, ending: &str) -> Option<Self>;

    /// The answer to a case.
    ///
    /// # Errors
    ///
    /// What is wrong with the case; `Memory`.
    fn answer(&mut self, rt: &HostRuntime, case: &Case<'_>) -> Result<String, CaseFault>;
}

/// How many cases were tried, and how many differ.
#[derive(Clone, Copy, Default)]
pub struct Tally {
    /// The cases that were tried.
    pub cases: u64,
    /// Those with another answer than the one that is wanted.
    pub differing: u64,
}

impl Tally {
    /// Counts a case.
    fn count(&mut self, differs: bool) {
        self.cases = self.cases.saturating_add(1);
        if differs {
            self.differing = self.differing.saturating_add(1);
        }
    }
}

/// Tries the case files that are the program's arguments; without any, those of the folder that it runs in, in the order of
/// their names.
///
/// # Errors
///
/// `File` and `Text` where the folder or a case file can't be read, `Stray` where one isn't in the form; `Memory`.
pub fn try_words<S: Scene>(rt: &HostRuntime) -> Result<Tally, CaseFault> {
    let words: Vec<String> = env::args(rt)?.collect(rt.alloc())?;
    match words.as_slice() {
        [] | [_] => {
            let names = names_of(rt, ".")?;
            try_files::<S>(rt, names.as_slice())
        }
        [_, files @ ..] => try_files::<S>(rt, files),
    }
}

/// The names of the files in a folder, in order.
fn names_of(rt: &HostRuntime, folder: &str) -> Result<Vec<String>, CaseFault> {
    let mut names = Vec::new(rt.alloc());
    for entry in fs::read_dir(rt, folder)? {
        let entry = entry?;
        names.push(String::from_str(rt.alloc(), entry.file_name())?)?;
    }
    names.sort()?;
    Ok(names)
}

/// Tries the cases of files; a file with another ending is passed over.
fn try_files<S: Scene>(rt: &HostRuntime, paths: &[String]) -> Result<Tally, CaseFault> {
    let mut tally = Tally::default();
    for path in paths {
        let ending = ending_of(path.as_str());
        if let Some(scene) = S::begin(rt.alloc(), ending) {
            try_file(rt, path.as_str(), ending, scene, &mut tally)?;
        }
    }
    Ok(tally)
}

/// What follows the last point of a file's name.
fn ending_of(path: &str) -> &str {
    match path.rsplit_once('.') {
        Some((_, ending)) => ending,
        None => "",
    }
}

/// Tries the cases of a file, beginning in a scene.
fn try_file<S: Scene>(
    rt: &HostRuntime,
    path: &str,
    ending: &str,
    scene: S,
    tally: &mut Tally,
) -> Result<(), CaseFault> {
    let mut scene = scene;
    let done = try_in(rt, path, ending, &mut scene, tally);
    drop(scene);
    done
}

/// Tries the cases of a file in a scene.
fn try_in<S: Scene>(
    rt: &HostRuntime,
    path: &str,
    ending: &str,
    scene: &mut S,
    tally: &mut Tally,
) -> Result<(), CaseFault> {
    let text = fs::read_to_string(rt, path)?;
    for case in &read_cases(rt.alloc(), text.as_str())? {
        if case.begins
            && let Some(begun) = S::begin(rt.alloc(), ending)
        {
            drop(mem::replace(scene, begun));
        }
        let answer = scene.answer(rt, case);
        tally.count(differs(rt, path, case, answer)?);
    }
    Ok(())
}

/// Whether the answer to a case isn't the one that is wanted; both are printed then.
fn differs(
    rt: &HostRuntime,
    path: &str,
    case: &Case<'_>,
    answer: Result<String, CaseFault>,
) -> Result<bool, CaseFault> {
    let got = text_of(rt.alloc(), answer)?;
    let wanted = case.wanted_text(rt.alloc())?;
    let line = got.strip_suffix('\n').unwrap_or(got.as_str());
    if line == wanted.as_str() {
        return Ok(false);
    }
    println!(rt; "{path}:{}: wanted\n{wanted}\ngot\n{line}", case.line)?;
    Ok(true)
}

/// An answer, or why there is none.
fn text_of(alloc: Global, answer: Result<String, CaseFault>) -> Result<String, CaseFault> {
    match answer {
        Ok(text) => Ok(text),
        Err(fault) => Ok(format!(in alloc; "{fault}")?),
    }
}
