//! The elements of an array, each written once after the shorter and the longer constructor.

ghost use Rattle.std.specs.Prelude.{◌≡◌, ◌++◌, ◌*◌, OnOk};
ghost use Rattle.std.specs.Int.{w32, w64};
ghost use Rattle.amqp_types.specs.Pieces.{pieces_view};
ghost use Rattle.amqp_model.specs.ValueSpelling.{no_piece, join, single, number_piece, signed_piece, sized_piece, compound_piece, wide_sizes, constructed};

use amqp_model::Kind;
use std::alloc::{AllocError, Global};

/// Elements of an array, without their constructor.
///
/// After an `Err` the elements are not to be used.
#[derive(Debug, Drop)]
pub struct Pieces {
    /// Whether each element fits the shorter constructor.
    pub fits: bool,
    pub narrow: Vec<u8>,
    pub wide: Vec<u8>,
}

impl Pieces {
    /// No elements.
    pub fn new(alloc: Global) -> Pieces
        ensures { pieces_view result ≡ no_piece }
    {
        Pieces {
            fits: true,
            narrow: Vec::new(alloc),
            wide: Vec::new(alloc),
        }
    }

    /// An element of a type with one constructor.
    pub(crate) fn single(&mut self, bytes: &[u8]) -> Result<(), AllocError>
        ensures { OnOk result (pieces_view self.new ≡ join (pieces_view self.old) (single bytes.now)) }
    {
        self.fits = false;
        self.wide.extend_from_slice(bytes)
    }

    /// A uint.
    pub(crate) fn uint(&mut self, number: u32) -> Result<(), AllocError>
        ensures { OnOk result (pieces_view self.new ≡ join (pieces_view self.old) (number_piece w32 number)) }
    {
        if number < 256 {
            self.narrow.push(number as u8)?;
        } else {
            self.fits = false;
        }
        self.wide.extend_from_slice(&number.to_be_bytes())
    }

    /// A ulong.
    pub(crate) fn ulong(&mut self, number: u64) -> Result<(), AllocError>
        ensures { OnOk result (pieces_view self.new ≡ join (pieces_view self.old) (number_piece w64 number)) }
    {
        if number < 256 {
            self.narrow.push(number as u8)?;
        } else {
            self.fits = false;
        }
        self.wide.extend_from_slice(&number.to_be_bytes())
    }

    /// An int.
    pub(crate) fn int(&mut self, number: i32) -> Result<(), AllocError>
        ensures { OnOk result (pieces_view self.new ≡ join (pieces_view self.old) (signed_piece w32 number)) }
    {
        if -128 <= number && number <= 127 {
            self.narrow.push((number as i8).cast_unsigned())?;
        } else {
            self.fits = false;
        }
        self.wide.extend_from_slice(&number.to_be_bytes())
    }

    /// A long.
    pub(crate) fn long(&mut self, number: i64) -> Result<(), AllocError>
        ensures { OnOk result (pieces_view self.new ≡ join (pieces_view self.old) (signed_piece w64 number)) }
    {
        if -128 <= number && number <= 127 {
            self.narrow.push((number as i8).cast_unsigned())?;
        } else {
            self.fits = false;
        }
        self.wide.extend_from_slice(&number.to_be_bytes())
    }

    /// A binary, a string or a symbol.
    pub fn sized(&mut self, bytes: &[u8]) -> Result<(), AllocError>
        ensures { OnOk result (pieces_view self.new ≡ join (pieces_view self.old) (sized_piece bytes.now)) }
    {
        let Ok(size) = u32::try_from(bytes.len()) else {
            return Err(AllocError);
        };
        if size < 256 {
            self.narrow.push(size as u8)?;
            self.narrow.extend_from_slice(bytes)?;
        } else {
            self.fits = false;
        }
        self.wide.extend_from_slice(&size.to_be_bytes())?;
        self.wide.extend_from_slice(bytes)
    }

    /// A list, a map or an array, by its count and the bytes after the count.
    pub(crate) fn compound(&mut self, count: usize, inside: &[u8]) -> Result<(), AllocError>
        ensures { OnOk result (pieces_view self.new ≡ join (pieces_view self.old) (compound_piece count inside.now)) }
    {
        if inside.len() < 255 && count < 256 {
            self.narrow.push((inside.len() + 1) as u8)?;
            self.narrow.push(count as u8)?;
            self.narrow.extend_from_slice(inside)?;
        } else {
            self.fits = false;
        }
        put_wide_sizes(&mut self.wide, count, inside.len())?;
        self.wide.extend_from_slice(inside)
    }

    /// A map, by how many keys it has and the bytes of them and their values.
    pub(crate) fn map(&mut self, count: usize, inside: &[u8]) -> Result<(), AllocError>
        ensures { OnOk result (pieces_view self.new ≡ join (pieces_view self.old) (compound_piece (2 * count) inside.now)) }
    {
        let Some(count) = count.checked_mul(2) else {
            return Err(AllocError);
        };
        self.compound(count, inside)
    }

    /// Appends the one constructor of all elements, the shortest that fits them, and the elements.
    pub fn put(&self, kind: Kind, out: &mut Vec<u8>) -> Result<(), AllocError>
        ensures { OnOk result (out.new.items ≡ out.old.items ++ constructed kind (pieces_view self.now)) }
    {
        if self.fits {
            out.push(kind.narrow_code())?;
            out.extend_from_slice(&self.narrow)
        } else {
            out.push(kind.wide_code())?;
            out.extend_from_slice(&self.wide)
        }
    }
}

/// Appends the size and the count of a compound, of four bytes each.
pub(crate) fn put_wide_sizes(
    out: &mut Vec<u8>,
    count: usize,
    length: usize,
) -> Result<(), AllocError>
    ensures { OnOk result (out.new.items ≡ out.old.items ++ wide_sizes count length) }
{
    let Some(size) = length.checked_add(4) else {
        return Err(AllocError);
    };
    let Ok(size) = u32::try_from(size) else {
        return Err(AllocError);
    };
    let Ok(count) = u32::try_from(count) else {
        return Err(AllocError);
    };
    out.extend_from_slice(&size.to_be_bytes())?;
    out.extend_from_slice(&count.to_be_bytes())
}
