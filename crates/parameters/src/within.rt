//! Which opening tags a tag stands behind that wait for their closing ones (20.2.1.3.2).

ghost use Rattle.std.specs.Prelude.{◌≡◌};
ghost use Rattle.parameters.specs.Within as spec;

/// The opening tags that wait, by their numbers, the outer one first.
#[derive(Clone, Copy, Debug)]
pub enum Within {
    /// None waits.
    Nothing,
    /// One does.
    One(u8),
    /// Two do.
    Two(u8, u8),
    /// So many more do within those two.
    More(u8, u8, u64),
}

impl Within {
    /// Behind an opening tag of this number.
    pub(crate) fn opened(self, number: u8) -> Within
        ensures { result ≡ spec.opened self number }
    {
        match self {
            Within::Nothing => Within::One(number),
            Within::One(outer) => Within::Two(outer, number),
            Within::Two(outer, inner) => Within::More(outer, inner, 1),
            Within::More(outer, inner, count) => Within::More(
                outer,
                inner,
                count.saturating_add(1),
            ),
        }
    }

    /// Behind a closing tag.
    pub(crate) fn closed(self) -> Within
        ensures { result ≡ spec.closed self }
    {
        match self {
            Within::Nothing | Within::One(_) => Within::Nothing,
            Within::Two(outer, _) => Within::One(outer),
            Within::More(outer, inner, count) => {
                if count < 2 {
                    Within::Two(outer, inner)
                } else {
                    Within::More(outer, inner, count - 1)
                }
            }
        }
    }

    /// Whether these are the same; more than two are the same as none.
    pub(crate) fn is_same(self, other: Within) -> bool
        ensures { result ≡ spec.is_same self other }
    {
        match (self, other) {
            (Within::Nothing, Within::Nothing) => true,
            (Within::One(a), Within::One(b)) => a == b,
            (Within::Two(a, b), Within::Two(c, d)) => a == c && b == d,
            (Within::Nothing | Within::One(_) | Within::Two(..) | Within::More(..), _) => false,
        }
    }
}
