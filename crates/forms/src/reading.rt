//! What a bit pattern means.
ghost use Rattle.std.specs.Prelude.{◌≡◌};
ghost use Rattle.forms.specs.Kinds.{is_signalling, is_infinite, is_quiet, is_nan};

/// The reading of a pattern in a number form. Exponents are counted from the form's least one.
#[derive(Clone, Copy, PartialEq, Eq, Debug)]
pub enum Reading {
    /// the number `significand * 2^exponent`, or its negative
    Finite {
        negative: bool,
        significand: u64,
        exponent: u32,
    },
    /// beyond every number of the form, on either side
    Infinite {
        negative: bool,
    },
    /// no number
    QuietNan,
    /// no number, and its use is to be reported as invalid
    SignallingNan,
}

impl Reading {
    /// Whether this is a signalling NaN.
    pub fn is_signalling(&self) -> bool
        ensures { result ≡ is_signalling self.now }
    {
        matches!(self, Reading::SignallingNan)
    }

    /// Whether this is an infinity of either sign.
    pub fn is_infinite(&self) -> bool
        ensures { result ≡ is_infinite self.now }
    {
        matches!(self, Reading::Infinite { .. })
    }

    /// Whether this is a quiet NaN.
    pub fn is_quiet(&self) -> bool
        ensures { result ≡ is_quiet self.now }
    {
        matches!(self, Reading::QuietNan)
    }

    /// Whether this is a NaN of either kind.
    pub fn is_nan(&self) -> bool
        ensures { result ≡ is_nan self.now }
    {
        self.is_signalling() || self.is_quiet()
    }
}
