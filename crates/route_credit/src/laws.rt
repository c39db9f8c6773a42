//! Laws of choices and grants. Nothing runs here: each function is a theorem on the definitions that the contracts cite.
ghost use Rattle.route_credit.specs.Laws.{ChoiceButLast, ChoiceIsOne, ChosenIsFree, GrantsAreEnough, GrantsButLast, GrantsLeaveNone, NobodyWhereNoneIsFree};

/// There is one choice at most.
pub fn choice_is_one()
    ensures { ChoiceIsOne }
{}

/// A consumer that is chosen has free credit.
pub fn chosen_is_free()
    ensures { ChosenIsFree }
{}

/// Nobody is chosen exactly where no consumer has free credit; on a multicast address nobody ever is.
pub fn nobody_where_none_is_free()
    ensures { NobodyWhereNoneIsFree }
{}

/// After all grants what is lent isn't below what is free, or no producer's lent credit and held deliveries are below
/// 64; on a multicast address each producer has more than 32 unused.
pub fn grants_are_enough()
    ensures { GrantsAreEnough }
{}

/// After all grants nothing more is granted.
pub fn grants_leave_none()
    ensures { GrantsLeaveNone }
{}

/// The consumer of the last delivery doesn't affect grants.
pub fn grants_but_last()
    ensures { GrantsButLast }
{}

/// Nor does it affect choices, except on a closest address.
pub fn choice_but_last()
    ensures { ChoiceButLast }
{}
