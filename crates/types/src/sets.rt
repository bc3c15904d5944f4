//! Sets of types.

ghost use Rattle.std.specs.Prelude.{◌≡◌, ◌/◌, ◌^◌, Decides, ◌==◌};
ghost use Rattle.types.specs.Sets.{bit, Declared, declared};

/// The number of types that a set can tell apart.
pub(crate) const TYPES: usize = 32;

/// A set of types: bit t of the mask says whether type t is in it.
// A mask, as it stands in lent tables.
#[derive(Clone, Copy, PartialEq, Eq, Debug)]
pub struct TypeSet {
    pub mask: u32,
}

impl TypeSet {
    /// Whether a type is in the set.
    pub(crate) fn has(self, at: u32) -> bool
        ensures { result ≡ bit self.mask at }
    {
        at < 32 && (self.mask >> at) % 2 == 1
    }

    /// Whether no type from a number on is in the set.
    fn has_none_from(self, count: u32) -> bool
        ensures { result ≡ (self.mask / 2 ^ count == 0) }
    {
        count >= 32 || self.mask >> count == 0
    }

    /// Whether the set is not empty, and has no type from a number on.
    fn has_only_below(self, count: u32) -> bool
        ensures { result ≡ declared count self }
    {
        self.mask != 0 && self.has_none_from(count)
    }

    /// Whether the set is one of some of the first `count` types: not empty, and with no other type in it.
    pub fn is_declared(self, count: u32) -> bool
        ensures as_computed { result ≡ declared count self }
        ensures decides_declared { Decides result (Declared count self) }
    {
        self.has_only_below(count)
    }
}
