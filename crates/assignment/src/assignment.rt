// The partial assignment: two masks of 64 bits, bit i for option i.
ghost use Rattle.std.specs.Prelude.{◌^◌, ◌<◌};

mod algebra;
mod laws;
mod methods;

pub use algebra::equality_laws;
pub use laws::precision_laws;

/// Option i is known yes where bit i of `yes` is set, and known no where bit i of `no` is.
/// It is unknown where neither is set, and inconsistent where both are.
#[derive(Clone, Copy, Debug, PartialEq, Eq)]
pub struct Assignment {
    yes: u64,
    no: u64,
    ghost fits: { (yes < 2 ^ 64) × (no < 2 ^ 64) },
}
