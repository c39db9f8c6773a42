//! Laws of the pools of all addresses. Nothing runs here: each function is a theorem on the definitions that the contracts cite.
ghost use Rattle.state_pools.specs.Laws.{PoolsAnswerAsSharing, PoolsAreSharing, TouchedSayNothing};

/// Pools that agree with the links don't depend on what touched links have.
pub fn touched_say_nothing()
    ensures { TouchedSayNothing }
{}

/// If nothing is touched, the pool of an address is the one computed from what each link has and the consumer chosen last; or it notes no
/// consumer as chosen last, and each one that it has attached after that.
pub fn pools_are_sharing()
    ensures { PoolsAreSharing }
{}

/// So its choice and its grants depend only on what each link has and on the consumer chosen last.
pub fn pools_answer_as_sharing()
    ensures { PoolsAnswerAsSharing }
{}
