//! The three solvers that answer lines.
use forms::binary::{Binary32, Binary64};
use forms::thousandths::Thousandths;
use solver::states::Sealed;
use sources::digit::DigitSource;

/// A sealed solver for each number form, over the digit source.
#[derive(Drop)]
pub struct Solvers {
    pub(crate) binary64: Sealed<Binary64, DigitSource>,
    pub(crate) binary32: Sealed<Binary32, DigitSource>,
    pub(crate) thousandths: Sealed<Thousandths, DigitSource>,
}
