//! Thousandths: a count of thousandths in 32-bit two's complement.
ghost use Rattle.forms.specs.Thousandths.{thousandths};
ghost use Rattle.std.proofs.Common.{rules};

use crate::number_form::NumberForm;
use crate::reading::Reading;
use exact::form::Form;
use exact::length::Magnitude;

#[derive(Clone, Copy, PartialEq, Eq, Debug)]
pub struct Thousandths;

const OVER_RANGE: u32 = 0x7fff_ffff;

const NO_READING: u32 = 0x8000_0000;

const UNDER_RANGE: u32 = 0x8000_0001;

impl NumberForm for Thousandths {
    type Pattern = u32;

    ghost encoding = { thousandths };

    ghost lawful = { Prim.search rules };

    fn form() -> Form {
        Form {
            precision: 31,
            least: 0,
            span: 0,
            largest: 0x7fff_fffe,
        }
    }

    fn read(pattern: u32) -> Reading {
        match pattern {
            OVER_RANGE => Reading::Infinite { negative: false },
            NO_READING => Reading::QuietNan,
            UNDER_RANGE => Reading::Infinite { negative: true },
            _ => {
                let negative = pattern > NO_READING;
                let magnitude = if negative {
                    pattern.wrapping_neg()
                } else {
                    pattern
                };
                Reading::Finite {
                    negative,
                    significand: magnitude as u64,
                    exponent: 0,
                }
            }
        }
    }

    fn write(magnitude: Magnitude) -> Option<u32> {
        Self::form()
            .contains(magnitude)
            .then(|| magnitude.significand as u32)
    }

    fn quiet_nan() -> u32 {
        NO_READING
    }

    fn plus_infinity() -> u32 {
        OVER_RANGE
    }
}

#[cfg(test)]
mod tests {
    use super::*;

    fn whole(negative: bool, significand: u64) -> Reading {
        Reading::Finite {
            negative,
            significand,
            exponent: 0,
        }
    }

    #[test]
    fn edges(rt: HostRuntime) {
        assert_eq!(rt; Thousandths::read(0), whole(false, 0));
        assert_eq!(rt; Thousandths::read(0x7fff_fffe), whole(false, 2_147_483_646));
        assert_eq!(rt;
            Thousandths::read(0x7fff_ffff),
            Reading::Infinite { negative: false }
        );
        assert_eq!(rt; Thousandths::read(0x8000_0000), Reading::QuietNan);
        assert_eq!(rt;
            Thousandths::read(0x8000_0001),
            Reading::Infinite { negative: true }
        );
        assert_eq!(rt; Thousandths::read(0x8000_0002), whole(true, 2_147_483_646));
        assert_eq!(rt; Thousandths::read(0xffff_ffff), whole(true, 1));
        assert_eq!(rt;
            Thousandths::write(Magnitude::new(2_147_483_646, 0)),
            Some(0x7fff_fffe)
        );
        assert_eq!(rt; Thousandths::write(Magnitude::new(2_147_483_647, 0)), None);
        assert_eq!(rt; Thousandths::write(Magnitude::new(1, 1)), None);
    }
}
