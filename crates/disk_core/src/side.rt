//! The two files of a twin.
ghost use Rattle.std.specs.Prelude.{◌≡◌, IfOk, string_bytes};
ghost use Rattle.disk_core.specs.Twin.{side_number, other, file_name};

use std::alloc::{AllocError, Global};

/// One of a twin's two files.
#[derive(Clone, Copy, Debug, PartialEq, Eq)]
pub enum Side {
    First,
    Second,
}

impl Side {
    /// The number with which the file's name ends: 0 or 1.
    pub fn number(self) -> u8
        ensures { result ≡ side_number self }
    {
        match self {
            Side::First => 0,
            Side::Second => 1,
        }
    }

    /// The other file.
    pub fn other(self) -> Self
        ensures { result ≡ other self }
    {
        match self {
            Side::First => Side::Second,
            Side::Second => Side::First,
        }
    }

    /// The name of this side's file: NAME.0 or NAME.1.
    pub fn file_name(self, alloc: Global, name: &str) -> Result<String, AllocError>
        ensures { IfOk result (λ text. string_bytes text ≡ file_name name.now self) }
    {
        let mut text = String::new(alloc);
        text.push_str(name)?;
        text.push_str(match self {
            Side::First => ".0",
            Side::Second => ".1",
        })?;
        Ok(text)
    }
}
