//! Laws of prefixes. Nothing runs here: each function is a theorem on the definitions that the contracts cite.
ghost use Rattle.route_table.specs.Laws.{BestIsLongest, OtherAddressChangesNothing, OtherRouteChangesNothing};

/// The best entry matches the address, is in the list, and no entry that matches has a longer prefix; there is none
/// only where no entry matches.
pub fn best_is_longest()
    ensures { BestIsLongest }
{}

/// A section `address` whose prefix doesn't match an address changes nothing for that address, wherever the section is.
pub fn other_address_changes_nothing()
    ensures { OtherAddressChangesNothing }
{}

/// A section `linkRoute` whose prefix doesn't match an address changes nothing for that address, wherever the section is.
pub fn other_route_changes_nothing()
    ensures { OtherRouteChangesNothing }
{}
