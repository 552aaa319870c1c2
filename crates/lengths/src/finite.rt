//! Sides as the patterns of a number form tell them: their readings, and finite sides.
ghost use Rattle.std.specs.Prelude.{◌≡◌, false, Some};
ghost use Rattle.exact.specs.Value.{Value, units};
ghost use Rattle.forms.specs.declared.reading.Reading.TheVariants.{Finite};
ghost use Rattle.sides.specs.Order.{side_units};
ghost use Rattle.triangle.specs.Outcome.{magnitude};
ghost use Rattle.lengths.specs.Finite.{OfForm, SideValue, side_pattern};

use exact::length::Magnitude;
use forms::number_form::NumberForm;
use forms::reading::Reading;
use sides::side::Side;
use std::marker::PhantomData;

/// The reading of a side in the form `F`: a finite one is a value of the form.
#[derive(Drop)]
pub struct SideReading<F: NumberForm> {
    pub reading: Reading,
    pub form: PhantomData<F>,
    ghost of_form: { OfForm F.NumberForm.encoding.form reading },
}

impl<F: NumberForm> SideReading<F> {
    /// The reading of a side's pattern.
    pub fn read(pattern: F::Pattern) -> SideReading<F>
        ensures { result.reading ≡ F.NumberForm.encoding.reading pattern }
    {
        SideReading {
            reading: F::read(pattern),
            form: PhantomData,
        }
    }

    /// The reading of a side of no length.
    pub fn zero() -> SideReading<F>
        ensures { result.reading ≡ Finite false 0 0 }
    {
        SideReading {
            reading: Reading::Finite {
                negative: false,
                significand: 0,
                exponent: 0,
            },
            form: PhantomData,
        }
    }

    /// The finite side; a reading that is no finite number counts as zero, and has been answered for.
    pub fn finite(&self) -> FiniteSide<F>
        ensures { side_units result.side ≡ magnitude self.now.reading }
    {
        FiniteSide {
            side: Side::new(self.magnitude()),
            form: PhantomData,
        }
    }

    // The magnitude of a finite reading, and zero of any other.
    fn magnitude(&self) -> Magnitude
        ensures value { Value F.NumberForm.encoding.form result.significand result.exponent }
        ensures units { units result.significand result.exponent ≡ magnitude self.now.reading }
    {
        match self.reading {
            Reading::Finite {
                significand,
                exponent,
                ..
            } => Magnitude::new(significand, exponent),
            _ => Magnitude::new(0, 0),
        }
    }
}

/// A finite side whose magnitude is a value of the form `F`.
#[derive(Drop)]
pub struct FiniteSide<F: NumberForm> {
    pub side: Side,
    pub form: PhantomData<F>,
    ghost value: { SideValue F.NumberForm.encoding.form side },
}

impl<F: NumberForm> FiniteSide<F> {
    /// The pattern of the side's magnitude.
    pub fn pattern(&self) -> Option<F::Pattern>
        ensures { result ≡ Some (side_pattern F.NumberForm.encoding self.now.side) }
    {
        F::write(self.side.magnitude)
    }
}
