// Comparing what was found in a test with what was wanted.
use std::fmt::Debug;
use std::test::Fail;

// What was found is what the case wants.
pub(crate) fn expect_same<T: PartialEq + Debug + Copy>(
    found: T,
    wanted: T,
    case: &str,
) -> Result<(), Fail> {
    if found != wanted {
        return Err(Fail::new(format_args!("{case}: {found:?} is not {wanted:?}")));
    }
    Ok(())
}
