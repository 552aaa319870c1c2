//! One more binary digit of a floor root.
ghost use Rattle.std.specs.Prelude.{◌≡◌, ◌+◌, ◌*◌, ◌^◌, ◌<◌, ◌≤◌};
ghost use Rattle.exact.specs.Root.{isqrt};
ghost use Rattle.walk.specs.Digit.{with_bits};

/// A floor root with what its square leaves of the radicand.
#[derive(Clone, Copy, PartialEq, Eq, Debug)]
pub struct Rooted {
    pub root: u64,
    pub residual: u64,
    ghost floor: { residual ≤ 2 * root },
}

impl Rooted {
    /// The floor root of the radicand with its next two bits. The root must have at most 55 bits.
    pub fn next(self, bits: u64) -> Rooted
        requires root { self.root < 2 ^ 55 }
        requires bits { bits < 4 }
        ensures root { result.root ≡ isqrt (with_bits self.root self.residual bits) }
        ensures residual { result.root * result.root + result.residual ≡ with_bits self.root self.residual bits }
    {
        last_digit(2 * self.root, 4 * self.residual + bits)
    }
}

// The root with its last digit set where the residual holds the odd number that this takes.
fn last_digit(root: u64, residual: u64) -> Rooted
    requires root { root < 2 ^ 56 }
    requires residual { residual ≤ 4 * root + 3 }
    ensures { result.root * result.root + result.residual ≡ root * root + residual }
{
    if residual > 2 * root {
        return Rooted {
            root: root + 1,
            residual: residual - (2 * root + 1),
        };
    }
    Rooted { root, residual }
}
