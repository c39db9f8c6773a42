//! Batches that are held until they are written together.
ghost use Rattle.std.specs.Prelude.{◌<◌, vec_len};

use crate::figures::Figures;

/// Batches that are held behind those on the files: what the active side gets from the gate on that ends it.
#[derive(Drop)]
pub(crate) struct Held {
    /// An open gate and the batch, for each of them, and a closed gate.
    pub(crate) bytes: Vec<u8>,
    /// The figures of the journal with them.
    pub(crate) ahead: Figures,
    ghost some: { 0 < vec_len bytes },
}
