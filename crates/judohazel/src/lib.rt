//! The five functions of the crate pxfm on right triangles, as entry points on bit patterns, for
//! Rattle and for C.
//!
//! A pattern does not depend on the root source, so these take a quick one; their contracts name the
//! digit source's answer.
#![tactic(auto)]

ghost use Rattle.std.specs.Prelude.{◌≡◌};
ghost use Rattle.forms.specs.Binary.{binary64, binary32};
ghost use Rattle.sources.specs.Source.{exact_source};
ghost use Rattle.lengths.specs.declared.call.Call.TheVariants.{Hypot, Cathetus, ThreeSides};
ghost use Rattle.lengths.specs.LengthOf.{length_of};
ghost use Rattle.lengths.specs.Right.{AnswersCall};

use float_source::FloatSource;
use forms::binary::{Binary32, Binary64};
use forms::number_form::NumberForm;
use lengths::call::Call;
use lengths::length::length_of;

// These stay five functions of one shape: C calls each by its name, with patterns of its width.

/// The hypotenuse over two legs, in binary64.
#[unsafe(no_mangle)]
pub extern "C" fn f_hypot(x: u64, y: u64) -> u64
    ensures value { result ≡ (length_of binary64 exact_source (Hypot x y)).pattern }
    ensures nearest { AnswersCall binary64 (Hypot x y) result }
{
    pattern::<Binary64>(Call::Hypot { x, y })
}

/// The other leg of a hypotenuse and a leg, in binary64.
#[unsafe(no_mangle)]
pub extern "C" fn f_cathetus(hypotenuse: u64, leg: u64) -> u64
    ensures value { result ≡ (length_of binary64 exact_source (Cathetus hypotenuse leg)).pattern }
    ensures nearest { AnswersCall binary64 (Cathetus hypotenuse leg) result }
{
    pattern::<Binary64>(Call::Cathetus { hypotenuse, leg })
}

/// The hypotenuse over two legs, in binary32.
#[unsafe(no_mangle)]
pub extern "C" fn f_hypotf(x: u32, y: u32) -> u32
    ensures value { result ≡ (length_of binary32 exact_source (Hypot x y)).pattern }
    ensures nearest { AnswersCall binary32 (Hypot x y) result }
{
    pattern::<Binary32>(Call::Hypot { x, y })
}

/// The other leg of a hypotenuse and a leg, in binary32.
#[unsafe(no_mangle)]
pub extern "C" fn f_cathetusf(hypotenuse: u32, leg: u32) -> u32
    ensures value { result ≡ (length_of binary32 exact_source (Cathetus hypotenuse leg)).pattern }
    ensures nearest { AnswersCall binary32 (Cathetus hypotenuse leg) result }
{
    pattern::<Binary32>(Call::Cathetus { hypotenuse, leg })
}

/// The resultant of three axes, in binary32.
#[unsafe(no_mangle)]
pub extern "C" fn f_hypot3f(x: u32, y: u32, z: u32) -> u32
    ensures value { result ≡ (length_of binary32 exact_source (ThreeSides x y z)).pattern }
    ensures nearest { AnswersCall binary32 (ThreeSides x y z) result }
{
    pattern::<Binary32>(Call::ThreeSides { x, y, z })
}

// The pattern of a call, in any form. Inlined, so that each name makes only its own kind of call.
#[inline(always)]
fn pattern<F: NumberForm>(call: Call<F::Pattern>) -> F::Pattern
    ensures value { result ≡ (length_of F.NumberForm.encoding exact_source call).pattern }
    ensures nearest { AnswersCall F.NumberForm.encoding call result }
{
    length_of::<F, FloatSource>(&FloatSource, call).pattern
}

#[cfg(test)]
mod tests {
    use super::*;

    // By position: which argument is the hypotenuse, no contract can say.
    #[test]
    fn hypotenuse_first(rt: HostRuntime) {
        assert_eq!(rt;
            f_cathetus(0x4014_0000_0000_0000, 0x4010_0000_0000_0000),
            0x4008_0000_0000_0000
        );
        assert_eq!(rt; f_cathetusf(0x40a0_0000, 0x4080_0000), 0x4040_0000);
    }
}
