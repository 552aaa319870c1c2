//! The theorems on the length, each asked for by the contract of a function.
ghost use Rattle.exact.specs.Value.{Limits};
ghost use Rattle.exact.specs.Nearest.{LengthExists, LengthIsUnique, LengthIsNearest, NearestIsUnique, LengthIsValue, ValueIsLength, LengthAtTop};

/// Every radicand has exactly one length, the computed one.
pub fn length_is_determined()
    ensures exists { LengthExists }
    ensures unique { LengthIsUnique }
{}

/// Where the root lies within a form, the length is its nearest value, the even one of two equally
/// near; to be nearest determines it. Elsewhere it is the largest value or lies beyond.
pub fn length_is_nearest()
    ensures nearest { LengthIsNearest }
    ensures only { NearestIsUnique }
    ensures value { LengthIsValue }
    ensures own { ValueIsLength }
    ensures top { LengthAtTop }
{}

/// The parameters of forms reach to their limits, and not past them.
pub fn form_limits()
    ensures { Limits }
{}
