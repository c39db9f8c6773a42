//! Questions on disks: what is read after writes, cuts, syncs and stops.
use case_files::{Case, CaseFault, bytes_of, digits_of, number_of, size_of};
use disk_core::{Crash, Disk, DiskFault, FileDisk, FuseDisk, MemDisk};
use std::alloc::Global;
use std::fs;
use std::str::Split;

/// The bytes of a buffer before a read.
const UNREAD: u8 = 0xEE;

/// The most bytes that a question reads.
const MOST_READ: usize = 65_536;

/// The disk of a scene.
#[derive(Drop)]
pub enum AnyDisk {
    /// A disk in memory.
    Memory(MemDisk),
    /// A disk in memory, whose calls may fail after a number of them.
    Fused(FuseDisk<MemDisk>),
    /// A file.
    File(FileDisk),
}

/// A call on a disk.
#[derive(Clone, Copy)]
enum Call {
    /// The number of bytes.
    Length,
    /// A read: from a place, this many bytes.
    Read,
    /// A write: at a place, these bytes.
    Write,
    /// A cut to a length.
    Cut,
    /// A sync.
    Sync,
}

/// A disk that a scene may take.
#[derive(Clone, Copy)]
enum Taken {
    /// A disk in memory with these bytes.
    Memory,
    /// The same with a fuse.
    Fused,
    /// The file of this name, which is made if it isn't there.
    Create,
    /// The file of this name.
    Open,
    /// The file of this name, which can't be written.
    Over,
}

/// What is asked in a scene.
#[derive(Clone, Copy)]
enum Question {
    /// To take a disk.
    Take(Taken),
    /// To put bytes into a file, past the disk.
    Put,
    /// The bytes of a file.
    Get,
    /// A fuse.
    Fuse,
    /// A stop.
    Crash,
    /// The bytes of a disk in memory.
    Bytes,
    /// A call.
    Call(Call),
}

/// The question of a case.
fn question_of(case: &Case<'_>) -> Result<Question, CaseFault> {
    match case.question {
        "memory" => Ok(Question::Take(Taken::Memory)),
        "fused" => Ok(Question::Take(Taken::Fused)),
        "create" => Ok(Question::Take(Taken::Create)),
        "open" => Ok(Question::Take(Taken::Open)),
        "over" => Ok(Question::Take(Taken::Over)),
        "put" => Ok(Question::Put),
        "get" => Ok(Question::Get),
        "fuse" => Ok(Question::Fuse),
        "crash" => Ok(Question::Crash),
        "bytes" => Ok(Question::Bytes),
        "length" => Ok(Question::Call(Call::Length)),
        "read" => Ok(Question::Call(Call::Read)),
        "write" => Ok(Question::Call(Call::Write)),
        "cut" => Ok(Question::Call(Call::Cut)),
        "sync" => Ok(Question::Call(Call::Sync)),
        _ => Err(CaseFault::Question),
    }
}

/// The answer to a question on the disk of a scene.
///
/// # Errors
///
/// `Question`, `Word`, `Bytes` and `Missing` where the case isn't in the form, `File`; `Memory`.
pub fn answer(
    rt: &HostRuntime,
    scene: &mut Option<AnyDisk>,
    case: &Case<'_>,
) -> Result<String, CaseFault> {
    let alloc = rt.alloc();
    match question_of(case)? {
        Question::Take(taken) => take(rt, scene, taken, case.words),
        Question::Put => put(rt, case.words),
        Question::Get => get(rt, case.words),
        Question::Fuse => fuse(alloc, scene, number_of(Some(case.words))?),
        Question::Crash => crash(alloc, scene, number_of(Some(case.words))?),
        Question::Bytes => bytes(alloc, scene),
        Question::Call(call) => called(alloc, scene, call, case.words),
    }
}

/// Takes a disk: nothing, or the fault.
fn take(
    rt: &HostRuntime,
    scene: &mut Option<AnyDisk>,
    taken: Taken,
    words: &str,
) -> Result<String, CaseFault> {
    let alloc = rt.alloc();
    match taken {
        Taken::Memory => {
            set(scene, AnyDisk::Memory(disk_of(alloc, words)?));
            Ok(String::new(alloc))
        }
        Taken::Fused => {
            set(scene, AnyDisk::Fused(FuseDisk::new(disk_of(alloc, words)?)));
            Ok(String::new(alloc))
        }
        Taken::Create => set_file(alloc, scene, FileDisk::create(rt, alloc, words)),
        Taken::Open => set_file(alloc, scene, FileDisk::open(rt, alloc, words)),
        Taken::Over => {
            let file = fs::open(rt, words)?;
            set_file(alloc, scene, FileDisk::over(alloc, file))
        }
    }
}

/// Sets the scene's disk.
fn set(scene: &mut Option<AnyDisk>, disk: AnyDisk) {
    drop(scene.replace(disk));
}

/// A disk in memory with the bytes of a word.
fn disk_of(alloc: Global, word: &str) -> Result<MemDisk, CaseFault> {
    let bytes = bytes_of(alloc, word)?;
    Ok(MemDisk::holding(alloc, bytes)?)
}

/// Sets the disk over a file as the scene's; gives nothing, or the fault's number.
fn set_file(
    alloc: Global,
    scene: &mut Option<AnyDisk>,
    disk: Result<FileDisk, DiskFault>,
) -> Result<String, CaseFault> {
    match disk {
        Ok(disk) => {
            set(scene, AnyDisk::File(disk));
            Ok(String::new(alloc))
        }
        Err(fault) => fault_text(alloc, fault),
    }
}

/// Writes a file: `NAME BYTES`.
///
/// # Errors
///
/// `Word`, `Bytes`, `File`, `Memory`.
pub fn put(rt: &HostRuntime, words: &str) -> Result<String, CaseFault> {
    let (name, digits) = words.split_once(' ').ok_or(CaseFault::Word)?;
    let bytes = bytes_of(rt.alloc(), digits)?;
    fs::write(rt, name, bytes.as_slice())?;
    Ok(String::new(rt.alloc()))
}

/// The bytes of a file.
///
/// # Errors
///
/// `File`, `Memory`.
pub fn get(rt: &HostRuntime, name: &str) -> Result<String, CaseFault> {
    digits_of(rt.alloc(), fs::read(rt, name)?.as_slice())
}

/// Sets a fuse.
fn fuse(alloc: Global, scene: &mut Option<AnyDisk>, calls: u64) -> Result<String, CaseFault> {
    match scene {
        Some(AnyDisk::Memory(disk)) => Crash::fuse(disk, calls),
        Some(AnyDisk::Fused(disk)) => Crash::fuse(disk, calls),
        Some(AnyDisk::File(_)) | None => return Err(CaseFault::Missing),
    }
    Ok(String::new(alloc))
}

/// Stops the disk: 0 leaves what the last sync left, 1 all writes since.
fn crash(alloc: Global, scene: &mut Option<AnyDisk>, how: u64) -> Result<String, CaseFault> {
    let how = u8::try_from(how).or(Err(CaseFault::Word))?;
    let left = match scene.take() {
        Some(AnyDisk::Memory(disk)) => AnyDisk::Memory(disk.crash(how)?),
        Some(AnyDisk::Fused(disk)) => AnyDisk::Fused(disk.crash(how)?),
        Some(AnyDisk::File(_)) | None => return Err(CaseFault::Missing),
    };
    set(scene, left);
    Ok(String::new(alloc))
}

/// The bytes of a disk in memory, whatever its fuse.
fn bytes(alloc: Global, scene: &mut Option<AnyDisk>) -> Result<String, CaseFault> {
    match scene.take() {
        Some(AnyDisk::Memory(disk)) => {
            let digits = digits_of(alloc, disk.bytes())?;
            *scene = Some(AnyDisk::Memory(disk));
            Ok(digits)
        }
        Some(AnyDisk::Fused(disk)) => {
            let inner = disk.into_inner();
            digits_of(alloc, inner.bytes())
        }
        Some(AnyDisk::File(_)) | None => Err(CaseFault::Missing),
    }
}

/// The answer of a call on the disk.
fn called(
    alloc: Global,
    scene: &mut Option<AnyDisk>,
    call: Call,
    words: &str,
) -> Result<String, CaseFault> {
    match scene {
        Some(AnyDisk::Memory(disk)) => called_on(alloc, disk, call, words),
        Some(AnyDisk::Fused(disk)) => called_on(alloc, disk, call, words),
        Some(AnyDisk::File(disk)) => called_on(alloc, disk, call, words),
        None => Err(CaseFault::Missing),
    }
}

/// The answer of a call on a disk of any kind.
fn called_on<D: Disk>(
    alloc: Global,
    disk: &mut D,
    call: Call,
    words: &str,
) -> Result<String, CaseFault> {
    let mut words = words.split(' ');
    match call {
        Call::Length => match disk.len() {
            Ok(length) => Ok(format!(in alloc; "{length}")?),
            Err(fault) => fault_text(alloc, fault),
        },
        Call::Read => read(alloc, disk, &mut words),
        Call::Write => {
            let at = size_of(words.next())?;
            let bytes = bytes_of(alloc, words.next().ok_or(CaseFault::Word)?)?;
            done(alloc, disk.write_at(at, bytes.as_slice()))
        }
        Call::Cut => done(alloc, disk.cut(size_of(words.next())?)),
        Call::Sync => done(alloc, disk.sync()),
    }
}

/// Reads `PLACE LENGTH`: how many bytes came, and the buffer, which had EE in each byte.
fn read<D: Disk>(
    alloc: Global,
    disk: &mut D,
    words: &mut Split<'_, char>,
) -> Result<String, CaseFault> {
    let at = size_of(words.next())?;
    let length = size_of(words.next())?.min(MOST_READ);
    let mut buffer = vec![in alloc; UNREAD; length]?;
    match disk.read_at(at, buffer.as_mut_slice()) {
        Ok(count) => {
            let digits = digits_of(alloc, buffer.as_slice())?;
            Ok(format!(in alloc; "{count} {digits}")?)
        }
        Err(fault) => fault_text(alloc, fault),
    }
}

/// Nothing if a call succeeded, or the number of its fault.
///
/// # Errors
///
/// `Memory`.
pub fn done(alloc: Global, outcome: Result<(), DiskFault>) -> Result<String, CaseFault> {
    match outcome {
        Ok(()) => Ok(String::new(alloc)),
        Err(fault) => fault_text(alloc, fault),
    }
}

/// A fault's number, and its text.
///
/// # Errors
///
/// `Memory`.
pub fn fault_text(alloc: Global, fault: DiskFault) -> Result<String, CaseFault> {
    let number = fault.number();
    Ok(format!(in alloc; "fault {number}: {fault}")?)
}
