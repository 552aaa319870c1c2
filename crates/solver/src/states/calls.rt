//! A sealed solver: length calls and new scans, which change it where it stands.
//!
//! A call is served when the steps left are at least `2^c + 4`, `c` the grade of the source, since
//! no call can take more. So a served call never ends short of steps, and whether a call is served
//! depends on no pattern.
ghost use Rattle.std.specs.Prelude.{◌≡◌, ◌≤◌};
ghost use Rattle.lengths.specs.declared.call.Call.TheVariants.{Hypot, Cathetus, ThreeSides};
ghost use Rattle.lengths.specs.LengthOf.{length_of};
ghost use Rattle.solver.specs.Sealing.{reserve as reserve_of};
ghost use Rattle.solver.specs.Serving.{serves, call_result, after_call, after_scan, reply_to, after_request};
ghost use Rattle.solver.specs.Log.{Logs, told_call, told_scan, told};

use crate::log::{Done, Request};
use crate::refusal::CallRefusal;
use crate::states::{Sealed, reserve};
use forms::number_form::NumberForm;
use lengths::call::{Call, Measured};
use lengths::length::length_of;
use sources::root_source::RootSource;

impl<F: NumberForm, R: RootSource> Sealed<F, R> {
    /// The hypotenuse over two legs.
    pub fn hypot(
        &mut self,
        x: F::Pattern,
        y: F::Pattern,
    ) -> Result<Measured<F::Pattern>, CallRefusal>
        ensures value { result ≡ call_result F.NumberForm.encoding R.RootSource.meaning self.old (Hypot x y) }
        ensures after { self.new ≡ after_call F.NumberForm.encoding R.RootSource.meaning self.old (Hypot x y) }
        ensures log { Logs F.NumberForm.encoding R.RootSource.meaning self.old (told_call (Hypot x y) result) self.new }
    {
        self.measure(Call::Hypot { x, y })
    }

    /// The other leg of a hypotenuse and a leg.
    pub fn cathetus(
        &mut self,
        hypotenuse: F::Pattern,
        leg: F::Pattern,
    ) -> Result<Measured<F::Pattern>, CallRefusal>
        ensures value { result ≡ call_result F.NumberForm.encoding R.RootSource.meaning self.old (Cathetus hypotenuse leg) }
        ensures after { self.new ≡ after_call F.NumberForm.encoding R.RootSource.meaning self.old (Cathetus hypotenuse leg) }
        ensures log { Logs F.NumberForm.encoding R.RootSource.meaning self.old (told_call (Cathetus hypotenuse leg) result) self.new }
    {
        self.measure(Call::Cathetus { hypotenuse, leg })
    }

    /// The resultant of three axes.
    pub fn three_sides(
        &mut self,
        x: F::Pattern,
        y: F::Pattern,
        z: F::Pattern,
    ) -> Result<Measured<F::Pattern>, CallRefusal>
        ensures value { result ≡ call_result F.NumberForm.encoding R.RootSource.meaning self.old (ThreeSides x y z) }
        ensures after { self.new ≡ after_call F.NumberForm.encoding R.RootSource.meaning self.old (ThreeSides x y z) }
        ensures log { Logs F.NumberForm.encoding R.RootSource.meaning self.old (told_call (ThreeSides x y z) result) self.new }
    {
        self.measure(Call::ThreeSides { x, y, z })
    }

    /// Any length call.
    pub fn measure(&mut self, call: Call<F::Pattern>) -> Result<Measured<F::Pattern>, CallRefusal>
        ensures value { result ≡ call_result F.NumberForm.encoding R.RootSource.meaning self.old call }
        ensures after { self.new ≡ after_call F.NumberForm.encoding R.RootSource.meaning self.old call }
        ensures log { Logs F.NumberForm.encoding R.RootSource.meaning self.old (told_call call result) self.new }
    {
        if !self.can_serve() {
            return Err(CallRefusal::TooFewSteps {
                steps_left: self.steps_left,
            });
        }
        let length = self.length(call);
        self.steps_left -= length.count;
        Ok(length)
    }

    /// Starts a new scan, with the whole allowance. It is never refused.
    pub fn new_scan(&mut self)
        ensures after { self.new ≡ after_scan self.old }
        ensures log { Logs F.NumberForm.encoding R.RootSource.meaning self.old told_scan self.new }
    {
        self.steps_left = self.allowance;
    }

    /// The reply to any request.
    pub fn answer(&mut self, request: Request<F::Pattern>) -> Result<Done<F::Pattern>, CallRefusal>
        ensures value { result ≡ reply_to F.NumberForm.encoding R.RootSource.meaning self.old request }
        ensures after { self.new ≡ after_request F.NumberForm.encoding R.RootSource.meaning self.old request }
        ensures log { Logs F.NumberForm.encoding R.RootSource.meaning self.old (told request result) self.new }
    {
        match request {
            Request::Length { call } => {
                let measured = self.measure(call)?;
                Ok(Done::Served { measured })
            }
            Request::NewScan => {
                self.new_scan();
                Ok(Done::Renewed)
            }
        }
    }

    // Whether enough steps are left for any call. The grade is tested again and is no ghost field: every
    // definition over sealed solvers would be over the meaning of their source as well, which is no plainer.
    fn can_serve(&self) -> bool
        ensures { result ≡ serves (R.RootSource.meaning self.now.source) self.now.steps_left }
    {
        let grade = self.source.grade();
        grade <= 7 && reserve(grade) <= self.steps_left
    }

    // The length of a call, and its count.
    fn length(&self, call: Call<F::Pattern>) -> Measured<F::Pattern>
        requires { (R.RootSource.meaning self.now.source).grade ≤ 7 }
        ensures value { result ≡ length_of F.NumberForm.encoding (R.RootSource.meaning self.now.source) call }
        ensures bound { result.count ≤ reserve_of (R.RootSource.meaning self.now.source) }
    {
        length_of::<F, R>(&self.source, call)
    }
}
