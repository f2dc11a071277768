//! A pass is lent to its table, and makes its steps there.
ghost use Rattle.std.specs.Prelude.{◌≡◌, ◌<◌};
ghost use Rattle.art_shared.specs.Stepper.{basis_of, lender, pass_of};
ghost use Rattle.art_shared.specs.Tables.{IsPassOf, basis_in, known_to, view_of_pass};

use crate::pass::Pass;
use crate::shared::Shared;
use crate::stepper::Stepper;

impl Pass {
    /// The number of the pass.
    pub fn number(&self) -> u32
        ensures is { result ≡ (view_of_pass self.now).pass }
        ensures inside { result < (known_to self.now).basis.sizes.passes }
    {
        self.number
    }
}

impl Shared {
    /// The table, at which the pass makes its steps.
    pub fn at<'a>(&'a self, pass: &'a mut Pass) -> Stepper<'a>
        requires { IsPassOf self.now pass.old }
        ensures pass { pass_of result ≡ pass.old }
        ensures basis { basis_of result ≡ basis_in self.now }
        ensures lender { lender result ≡ pass.entry.ghost_name }
    {
        Stepper { shared: self, pass }
    }
}
