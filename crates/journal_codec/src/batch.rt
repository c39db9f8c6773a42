//! Decoding a batch.
ghost use Rattle.std.specs.Prelude.{◌≡◌, ◌≢◌, ◌++◌, [], ◌∷◌, IfOk, IsErrOf};
ghost use Rattle.journal_codec.specs.Format.{acts_bytes, batch};
ghost use Rattle.journal_codec.specs.Batches.{AreWritable, IsBatch, NoActs, NoneBegins};

use crate::read::{ReadFault, act, inside};
use book_model::Act;
use std::alloc::Global;

/// The acts that make up all of these bytes.
///
/// # Errors
///
/// `Misspelt` where the bytes are those of no acts; `Memory`.
pub fn read_acts(alloc: Global, bytes: &[u8]) -> Result<Vec<Act>, ReadFault>
    ensures spelled { IfOk result (λ v. bytes.now ≡ acts_bytes v.items) }
    ensures writable { IfOk result (λ v. AreWritable v.items) }
    ensures none { IsErrOf result ReadFault.Misspelt → NoActs bytes.now }
{
    let mut acts = Vec::new(alloc);
    let mut rest = bytes;
    while !rest.is_empty() {
        match act(alloc, rest) {
            Err(fault) => return Err(fault),
            Ok((read, behind)) => {
                acts.push(read)?;
                rest = behind;
            }
        }
    }
    Ok(acts)
}

/// The batch at the front, and what follows it, which isn't empty.
///
/// # Errors
///
/// `Misspelt` where no batch with something behind it stands at the front; `Memory`.
pub fn read_batch(alloc: Global, bytes: &[u8]) -> Result<(Vec<Act>, &[u8]), ReadFault>
    ensures spelled { IfOk result (λ x. bytes.now ≡ batch x.0.items ++ x.1.now) }
    ensures is_batch { IfOk result (λ x. IsBatch x.0.items) }
    ensures behind { IfOk result (λ x. x.1.now ≢ []) }
    ensures none { IsErrOf result ReadFault.Misspelt → NoneBegins bytes.now }
{
    match inside(bytes) {
        Err(fault) => Err(fault),
        Ok((inside, behind)) => match read_acts(alloc, inside) {
            Err(fault) => Err(fault),
            Ok(acts) => Ok((acts, behind)),
        },
    }
}
