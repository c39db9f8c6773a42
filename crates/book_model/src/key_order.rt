//! The order of links' keys, in which termini are found by key.
ghost use Rattle.std.specs.Prelude.{◌≡◌, refl};
ghost use Rattle.std.specs.Cmp.{eq_by_cmp_equiv, partial_equiv_from_equiv, partial_order_from_agreeing_total};
ghost use Rattle.std.specs.Ordering.{eq_by_cmp};
ghost use Rattle.std.specs.Prelude.{Some};
ghost use Rattle.book_model.specs.Keys.{key_cmp, keys_total, rank};
ghost use Rattle.book_model.specs.declared.terminus.LinkKey.{LinkKey};

use crate::terminus::{LinkKey, LinkRole};
use std::cmp::Ordering;

impl PartialEq for LinkKey {
    ghost eq = { eq_by_cmp key_cmp };

    ghost laws = { partial_equiv_from_equiv (eq_by_cmp_equiv keys_total) };

    fn eq(&self, other: &LinkKey) -> bool {
        self.cmp(other).is_eq()
    }
}

impl Eq for LinkKey {
    ghost laws = { eq_by_cmp_equiv keys_total };
}

impl PartialOrd for LinkKey {
    ghost partial_cmp = { λ k l. Some (key_cmp k l) };

    ghost laws = { partial_order_from_agreeing_total key_cmp keys_total (λ k l. refl) (λ k l. refl) };

    fn partial_cmp(&self, other: &LinkKey) -> Option<Ordering> {
        Some(self.cmp(other))
    }
}

/// By name, then by container, by user and by role.
impl Ord for LinkKey {
    ghost cmp = { key_cmp };

    ghost total = { keys_total };

    ghost matches_partial_cmp = { λ k l. refl };

    ghost matches_eq = { λ k l. refl };

    fn cmp(&self, other: &LinkKey) -> Ordering {
        let roles = rank(self.role).cmp(&rank(other.role));
        let users = self.user.as_str().cmp(other.user.as_str());
        let containers = self.container.as_str().cmp(other.container.as_str());
        let names = self.name.as_str().cmp(other.name.as_str());
        names.then(containers.then(users.then(roles)))
    }
}

fn rank(role: LinkRole) -> u8
    ensures { result ≡ rank role }
{
    match role {
        LinkRole::Producer => 0,
        LinkRole::Consumer => 1,
    }
}
