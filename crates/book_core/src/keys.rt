//! The numbers of termini by their links' keys.
ghost use Rattle.std.specs.Prelude.{◌≡◌, OnOk, if◌then◌else◌};
ghost use Rattle.std.specs.BTreeMap.{get};
ghost use Rattle.std.specs.Ordering.{is_eq};
ghost use Rattle.book_model.specs.Keys.{key_cmp};
ghost use Rattle.book_model.specs.declared.terminus.LinkKey.{LinkKey};
ghost use Rattle.book_core.specs.Numbers.{number_at, earlier};

use crate::numbers::Numbers;
use book_model::LinkKey;
use std::alloc::AllocError;

/// Sets the number of the terminus that has a key: 0 if none has it.
pub(crate) fn set_key(
    keys: &mut Numbers<LinkKey>,
    key: &LinkKey,
    number: u64,
) -> Result<(), AllocError>
    ensures set { OnOk result ((q : LinkKey) → number_at key_cmp keys.new q ≡ (if is_eq (key_cmp key.now q) then number else number_at key_cmp keys.old q)) }
    ensures was { earlier key_cmp keys.new.log.items (get key_cmp keys.new.numbers) ≡ earlier key_cmp keys.old.log.items (get key_cmp keys.old.numbers) }
{
    let kept = key.clone()?;
    let logged = key.clone()?;
    keys.set(kept, logged, number)
}
