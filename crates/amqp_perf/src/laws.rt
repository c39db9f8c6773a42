//! What holds of all that is written. These functions do nothing: their contracts are the laws.

ghost use Rattle.std.specs.Prelude.{◌≡◌, ◌≤◌, ◌++◌, length, take, List, ℕ, Err};
ghost use Rattle.amqp_model.specs.declared.type_fault.TypeFault.TheVariants as type_fault;
ghost use Rattle.amqp_model.specs.declared.perf_fault.PerfFault.{PerfFault};
ghost use Rattle.amqp_model.specs.declared.perf_fault.PerfFault.TheVariants as fault;
ghost use Rattle.amqp_model.specs.declared.perf.Perf.{Perf};
ghost use Rattle.amqp_model.specs.declared.state.DeliveryState.{DeliveryState};
ghost use Rattle.amqp_model.specs.PerfSpelling.{spelling, state_spelling};
ghost use Rattle.amqp_perf.specs.Performative.{performative, state};
ghost use Rattle.amqp_perf.specs.Fitting.{Fits, FitsState, read_as};
ghost use Rattle.amqp_perf.specs.ListTables.{SpellsPerf, SpellsState};

/// What is written of a performative, or of a delivery state that stands alone, is read again as the same one, with its
/// length, whatever follows. The numbers, texts and sizes have to be within the limits of their types.
pub fn written_is_read_again()
    ensures performative { (p : Perf) (rest : List ℕ)
        → Fits p → performative (spelling p ++ rest) ≡ read_as p (length (spelling p)) }
    ensures state { (s : DeliveryState) (rest : List ℕ)
        → FitsState 32 s → state (state_spelling s ++ rest) ≡ read_as s (length (state_spelling s)) }
{}

/// What is read of bytes is encoded by as many of them as are counted: they encode a described list whose fields hold by the table of
/// this performative, or this delivery state.
pub fn read_as_its_table_says()
    ensures performative { (bytes : List ℕ) (p : Perf) (n : ℕ)
        → performative bytes ≡ read_as p n → SpellsPerf (take n bytes) p × (n ≤ length bytes) }
    ensures state { (bytes : List ℕ) (s : DeliveryState) (n : ℕ)
        → state bytes ≡ read_as s n → SpellsState (take n bytes) s × (n ≤ length bytes) }
{}

/// What encodes a performative, or a delivery state, by its table is read as that one, with its length, whatever follows.
pub fn encoded_by_its_table_is_read()
    ensures performative { (p : Perf) (text rest : List ℕ)
        → SpellsPerf text p → performative (text ++ rest) ≡ read_as p (length text) }
    ensures state { (s : DeliveryState) (text rest : List ℕ)
        → SpellsState text s → state (text ++ rest) ≡ read_as s (length text) }
{}

/// What is written of a performative, or of a delivery state, encodes it by its table. The numbers, texts and sizes have to be within
/// the limits of their types.
pub fn written_as_its_table_says()
    ensures performative { (p : Perf) → Fits p → SpellsPerf (spelling p) p }
    ensures state { (s : DeliveryState) → FitsState 32 s → SpellsState (state_spelling s) s }
{}

/// No encoding of a performative, or of a delivery state, begins another, and each is of one alone.
pub fn none_begins_another()
    ensures performative { (a b x y : List ℕ) (p q : Perf)
        → SpellsPerf a p → SpellsPerf b q → a ++ x ≡ b ++ y → (a ≡ b) × (p ≡ q) }
    ensures state { (a b x y : List ℕ) (s t : DeliveryState)
        → SpellsState a s → SpellsState b t → a ++ x ≡ b ++ y → (a ≡ b) × (s ≡ t) }
{}

/// A fault other than `Truncated` stays, whatever bytes come behind: nothing that begins so encodes a performative. `Truncated` is told
/// where all bytes were used: each beginning of them is answered so, too.
pub fn a_fault_stays()
    ensures stays { (bytes more : List ℕ) (e : PerfFault)
        → performative bytes ≡ Err e → (e ≡ fault.Spelling type_fault.Truncated → ⊥) → performative (bytes ++ more) ≡ Err e }
    ensures none { (bytes more text rest : List ℕ) (p : Perf) (e : PerfFault)
        → performative bytes ≡ Err e → (e ≡ fault.Spelling type_fault.Truncated → ⊥) → bytes ++ more ≡ text ++ rest → SpellsPerf text p → ⊥ }
    ensures truncated { (bytes more : List ℕ)
        → performative (bytes ++ more) ≡ Err (fault.Spelling type_fault.Truncated) → performative bytes ≡ Err (fault.Spelling type_fault.Truncated) }
{}

/// The same of a delivery state that stands alone.
pub fn a_fault_of_a_state_stays()
    ensures stays { (bytes more : List ℕ) (e : PerfFault)
        → state bytes ≡ Err e → (e ≡ fault.Spelling type_fault.Truncated → ⊥) → state (bytes ++ more) ≡ Err e }
    ensures none { (bytes more text rest : List ℕ) (s : DeliveryState) (e : PerfFault)
        → state bytes ≡ Err e → (e ≡ fault.Spelling type_fault.Truncated → ⊥) → bytes ++ more ≡ text ++ rest → SpellsState text s → ⊥ }
    ensures truncated { (bytes more : List ℕ)
        → state (bytes ++ more) ≡ Err (fault.Spelling type_fault.Truncated) → state bytes ≡ Err (fault.Spelling type_fault.Truncated) }
{}
