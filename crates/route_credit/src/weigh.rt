//! What links are ordered and summed by.
ghost use Rattle.std.specs.Prelude.{◌≡◌, ℕ, true, Option};
ghost use Rattle.route_table.specs.declared.sections.Distribution.{Distribution};

use route_table::Distribution;

/// What is known of a link: its rank among the links of its address, and its part in their sum.
pub(crate) trait Weigh: Copy + Drop {
    ghost rank: { Distribution → Self → Option ℕ };

    ghost amount: { Self → ℕ };

    /// When the link's turn comes: the lowest is first. None where it has no turn.
    fn rank(self, distribution: Distribution) -> Option<u64>
        ensures { result ≡ rank distribution self };

    /// Whether the same is known of another.
    fn is_same(self, other: Self) -> bool
        ensures { result ≡ true → self ≡ other };

    /// Its part in the sum.
    fn amount(self) -> u64
        ensures { result ≡ amount self };
}
