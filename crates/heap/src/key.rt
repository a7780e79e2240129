//! What a heap orders its places by.
ghost use Rattle.std.specs.Prelude.{◌≡◌};
ghost use Rattle.measure.specs.Orders.{TotalOrder};

pub mod length_key;
pub mod rank_place;

/// A key: values with a total order and a least one.
// Not `Ord`: that has no least value, and a length is ordered by its measure's one comparison, from which
// `Ord` would need four impls by hand.
pub trait Key: Copy {
    /// The order with its laws.
    ghost order: { TotalOrder Self };

    /// The least key.
    fn least() -> Self
        ensures { result ≡ order.least };

    /// Whether this key is at most the other.
    fn at_most(self, other: Self) -> bool
        ensures { result ≡ order.at_most self other };
}
