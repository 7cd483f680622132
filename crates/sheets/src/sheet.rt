// What table sheets and clause sheets have in common.
ghost use Rattle.std.specs.Prelude.{◌≡◌, ℕ, List};
ghost use Rattle.refusals.specs.Checks.{Check, judged, seen};
ghost use Rattle.refusals.specs.declared.fault.SheetFault.{SheetFault as Fault};

use refusals::{Body, SheetFault};

/// What stands for the body of a sheet, however long it borrows the body.
pub trait SheetBody {
    ghost body_of: { Self → List ℕ };
}

/// A sheet over the part of the file that is its body. Its kind says which checks a body has to pass.
pub trait Sheet<'a>: SheetBody + Sized {
    ghost checks: { (options place : ℕ) → List ℕ → List (Check Fault) };

    /// The sheet that a body holds, with so many options, or why it is refused.
    fn read(body: Body<'a>, options: u32) -> Result<Self, SheetFault>
        ensures { seen Self.body_of result ≡ judged (checks options body.entry.place body.entry.bytes.now) body.entry.bytes.now };
}
