//! What holds of all encodings. These functions do nothing: their contracts are the laws.

ghost use Rattle.std.specs.Prelude.{◌≡◌, ◌++◌, List, ℕ, Err};
ghost use Rattle.amqp_model.specs.Data.{Data};
ghost use Rattle.amqp_types.specs.Fitting.{FitsIn, IsTyped};
ghost use Rattle.amqp_types.specs.Spells.{Spells};
ghost use Rattle.amqp_model.specs.ValueSpelling.{spelling};
ghost use Rattle.amqp_types.specs.Reading.{value_at, found_before};
ghost use Rattle.amqp_model.specs.declared.type_fault.TypeFault.{TypeFault};
ghost use Rattle.amqp_model.specs.declared.type_fault.TypeFault.TheVariants as fault;

/// No encoding is a prefix of another: the value at the front is settled, whatever follows.
pub fn none_begins_another()
    ensures { (depth : ℕ) (a b x y : List ℕ) (v w : Data)
        → Spells depth a v → Spells depth b w → a ++ x ≡ b ++ y → (a ≡ b) × (v ≡ w) }
{}

/// What is written of a value encodes it, and is read again as the same value, whatever follows.
pub fn written_is_read_again()
    ensures spelled { (depth : ℕ) (v : Data) → FitsIn depth v → Spells depth (spelling v) v }
    ensures again { (depth : ℕ) (v : Data) (rest : List ℕ)
        → FitsIn depth v → value_at depth (spelling v ++ rest) ≡ found_before v rest }
{}

/// The elements of each array in an encoded value, and so in a decoded one, are of the
/// array's type.
pub fn arrays_are_of_one_type()
    ensures { (depth : ℕ) (bytes : List ℕ) (v : Data) → Spells depth bytes v → IsTyped depth v }
{}

/// A fault other than `Truncated` stays, whatever bytes come behind: nothing that begins so encodes a value. `Truncated` is told where
/// all bytes were used: each beginning of them is answered so, too.
pub fn a_fault_stays()
    ensures stays { (depth : ℕ) (bytes more : List ℕ) (e : TypeFault)
        → value_at depth bytes ≡ Err e → (e ≡ fault.Truncated → ⊥) → value_at depth (bytes ++ more) ≡ Err e }
    ensures none { (depth : ℕ) (bytes more text rest : List ℕ) (v : Data) (e : TypeFault)
        → value_at depth bytes ≡ Err e → (e ≡ fault.Truncated → ⊥) → bytes ++ more ≡ text ++ rest → Spells depth text v → ⊥ }
    ensures truncated { (depth : ℕ) (bytes more : List ℕ)
        → value_at depth (bytes ++ more) ≡ Err fault.Truncated → value_at depth bytes ≡ Err fault.Truncated }
{}
