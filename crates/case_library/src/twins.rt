//! Questions on twins: what is read of two files after writes, cuts, syncs and stops.
use crate::disks::{done, fault_text, get, put};
use case_files::{Case, CaseFault, bytes_of, digits_of, number_of, size_of};
use disk_core::{CrashTwin, DiskFault, FileTwin, FuseTwin, MemTwin, Side, Twin};
use std::alloc::Global;
use std::str::Split;

/// The bytes of a buffer before a read.
const UNREAD: u8 = 0xEE;

/// The most bytes that a question reads.
const MOST_READ: usize = 65_536;

/// The twin of a scene.
#[derive(Drop)]
pub enum AnyTwin {
    /// Two files in memory.
    Memory(MemTwin),
    /// Two files in memory, whose calls may fail after a number of them.
    Fused(FuseTwin<MemTwin>),
    /// Two files.
    Files(FileTwin),
}

/// What is asked in a scene.
#[derive(Clone, Copy)]
enum Question {
    /// To take two files in memory with these bytes.
    Memory,
    /// The same with a fuse.
    Fused,
    /// To take the files of this name, which are made if they aren't there.
    Create,
    /// To take the files of this name.
    Open,
    /// The same for reading, with a limit to the bytes of each.
    OpenToRead,
    /// To put bytes into a file, past the twin.
    Put,
    /// The bytes of a file.
    Get,
    /// A fuse.
    Fuse,
    /// A stop.
    Crash,
    /// The bytes of both sides in memory.
    Bytes,
    /// A call on a side.
    Call(Call),
}

/// A call on a side.
#[derive(Clone, Copy)]
enum Call {
    /// The number of bytes.
    Length,
    /// A read: from a place, this many bytes.
    Read,
    /// A write: at a place, these bytes.
    Write,
    /// A cut to a length.
    Cut,
    /// A sync.
    Sync,
}

/// The question of a case.
fn question_of(case: &Case<'_>) -> Result<Question, CaseFault> {
    match case.question {
        "memory" => Ok(Question::Memory),
        "fused" => Ok(Question::Fused),
        "create" => Ok(Question::Create),
        "open" => Ok(Question::Open),
        "open_to_read" => Ok(Question::OpenToRead),
        "put" => Ok(Question::Put),
        "get" => Ok(Question::Get),
        "fuse" => Ok(Question::Fuse),
        "crash" => Ok(Question::Crash),
        "bytes" => Ok(Question::Bytes),
        "length" => Ok(Question::Call(Call::Length)),
        "read" => Ok(Question::Call(Call::Read)),
        "write" => Ok(Question::Call(Call::Write)),
        "cut" => Ok(Question::Call(Call::Cut)),
        "sync" => Ok(Question::Call(Call::Sync)),
        _ => Err(CaseFault::Question),
    }
}

/// The answer to a question on the twin of a scene.
///
/// # Errors
///
/// `Question`, `Word`, `Bytes` and `Missing` where the case isn't in the form, `File`; `Memory`.
pub fn answer(
    rt: &HostRuntime,
    scene: &mut Option<AnyTwin>,
    case: &Case<'_>,
) -> Result<String, CaseFault> {
    let alloc = rt.alloc();
    match question_of(case)? {
        Question::Memory => {
            set(scene, AnyTwin::Memory(twin_of(alloc, case.words)?));
            Ok(String::new(alloc))
        }
        Question::Fused => {
            set(
                scene,
                AnyTwin::Fused(FuseTwin::new(twin_of(alloc, case.words)?)),
            );
            Ok(String::new(alloc))
        }
        Question::Create => set_files(alloc, scene, FileTwin::create(rt, alloc, case.words)),
        Question::Open => set_files(alloc, scene, FileTwin::open(rt, alloc, case.words)),
        Question::OpenToRead => {
            let (name, most) = case.words.split_once(' ').ok_or(CaseFault::Word)?;
            let most = size_of(Some(most))?;
            set_files(alloc, scene, FileTwin::open_to_read(rt, alloc, name, most))
        }
        Question::Put => put(rt, case.words),
        Question::Get => get(rt, case.words),
        Question::Fuse => fuse(alloc, scene, number_of(Some(case.words))?),
        Question::Crash => crash(alloc, scene, number_of(Some(case.words))?),
        Question::Bytes => bytes(alloc, scene),
        Question::Call(call) => called(alloc, scene, call, case.words),
    }
}

/// Sets the scene's twin.
fn set(scene: &mut Option<AnyTwin>, twin: AnyTwin) {
    drop(scene.replace(twin));
}

/// Two files in memory with the bytes of two words.
fn twin_of(alloc: Global, words: &str) -> Result<MemTwin, CaseFault> {
    let (first, second) = words.split_once(' ').ok_or(CaseFault::Word)?;
    let first = bytes_of(alloc, first)?;
    let second = bytes_of(alloc, second)?;
    Ok(MemTwin::holding(alloc, first, second)?)
}

/// Sets the twin over two files as the scene's; gives nothing, or the fault's number.
fn set_files(
    alloc: Global,
    scene: &mut Option<AnyTwin>,
    twin: Result<FileTwin, DiskFault>,
) -> Result<String, CaseFault> {
    match twin {
        Ok(twin) => {
            set(scene, AnyTwin::Files(twin));
            Ok(String::new(alloc))
        }
        Err(fault) => fault_text(alloc, fault),
    }
}

/// Sets a fuse for both sides.
fn fuse(alloc: Global, scene: &mut Option<AnyTwin>, calls: u64) -> Result<String, CaseFault> {
    match scene {
        Some(AnyTwin::Memory(twin)) => CrashTwin::fuse(twin, calls),
        Some(AnyTwin::Fused(twin)) => CrashTwin::fuse(twin, calls),
        Some(AnyTwin::Files(_)) | None => return Err(CaseFault::Missing),
    }
    Ok(String::new(alloc))
}

/// Stops both sides: 0 leaves what the last sync of each left, 1 all writes since.
fn crash(alloc: Global, scene: &mut Option<AnyTwin>, how: u64) -> Result<String, CaseFault> {
    let how = u8::try_from(how).or(Err(CaseFault::Word))?;
    let left = match scene.take() {
        Some(AnyTwin::Memory(twin)) => AnyTwin::Memory(twin.crash(how)?),
        Some(AnyTwin::Fused(twin)) => AnyTwin::Fused(twin.crash(how)?),
        Some(AnyTwin::Files(_)) | None => return Err(CaseFault::Missing),
    };
    set(scene, left);
    Ok(String::new(alloc))
}

/// The bytes of both sides in memory.
fn bytes(alloc: Global, scene: &Option<AnyTwin>) -> Result<String, CaseFault> {
    match scene {
        Some(AnyTwin::Memory(twin)) => {
            let first = digits_of(alloc, twin.bytes(Side::First))?;
            let second = digits_of(alloc, twin.bytes(Side::Second))?;
            Ok(format!(in alloc; "{first} {second}")?)
        }
        Some(AnyTwin::Fused(_)) | Some(AnyTwin::Files(_)) | None => Err(CaseFault::Missing),
    }
}

/// The answer of a call on a side: its number, and the call's words.
fn called(
    alloc: Global,
    scene: &mut Option<AnyTwin>,
    call: Call,
    words: &str,
) -> Result<String, CaseFault> {
    match scene {
        Some(AnyTwin::Memory(twin)) => called_on(alloc, twin, call, words),
        Some(AnyTwin::Fused(twin)) => called_on(alloc, twin, call, words),
        Some(AnyTwin::Files(twin)) => called_on(alloc, twin, call, words),
        None => Err(CaseFault::Missing),
    }
}

/// The side of a word.
fn side_of(word: Option<&str>) -> Result<Side, CaseFault> {
    match number_of(word)? {
        0 => Ok(Side::First),
        1 => Ok(Side::Second),
        _ => Err(CaseFault::Word),
    }
}

/// The answer of a call on a twin of any kind.
fn called_on<T: Twin>(
    alloc: Global,
    twin: &mut T,
    call: Call,
    words: &str,
) -> Result<String, CaseFault> {
    let mut words = words.split(' ');
    let side = side_of(words.next())?;
    match call {
        Call::Length => match twin.len(side) {
            Ok(length) => Ok(format!(in alloc; "{length}")?),
            Err(fault) => fault_text(alloc, fault),
        },
        Call::Read => read(alloc, twin, side, &mut words),
        Call::Write => {
            let at = size_of(words.next())?;
            let bytes = bytes_of(alloc, words.next().ok_or(CaseFault::Word)?)?;
            done(alloc, twin.write_at(side, at, bytes.as_slice()))
        }
        Call::Cut => done(alloc, twin.cut(side, size_of(words.next())?)),
        Call::Sync => done(alloc, twin.sync(side)),
    }
}

/// Reads `PLACE LENGTH` of a side: how many bytes came, and the buffer, which had EE in each byte.
fn read<T: Twin>(
    alloc: Global,
    twin: &mut T,
    side: Side,
    words: &mut Split<'_, char>,
) -> Result<String, CaseFault> {
    let at = size_of(words.next())?;
    let length = size_of(words.next())?.min(MOST_READ);
    let mut buffer = vec![in alloc; UNREAD; length]?;
    match twin.read_at(side, at, buffer.as_mut_slice()) {
        Ok(count) => {
            let digits = digits_of(alloc, buffer.as_slice())?;
            Ok(format!(in alloc; "{count} {digits}")?)
        }
        Err(fault) => fault_text(alloc, fault),
    }
}
