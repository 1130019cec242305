//! Assertions as calls, what a call says, and whether a device fails still.
use patch_device::Device;
use patch_model::{BLOCK, RefusalKind};
use std::fmt::Debug;
use std::process::Abort;

/// Ends the test, telling both, unless what came is what is wanted. A call takes the prover less than `assert_eq!` where it stands.
pub(crate) fn expect_eq<T: PartialEq + Debug>(rt: &impl Abort, got: &T, want: &T) {
    assert_eq!(rt; *got, *want);
}

/// Asserts of what is named.
pub(crate) fn expect_equal<T: Copy + Debug + PartialEq>(
    rt: &impl Abort,
    what: &str,
    got: T,
    want: T,
) {
    assert_eq!(rt; got, want, "{what}");
}

/// Whether a call is done, or of which kind the refusal is.
pub(crate) type Said = Result<(), RefusalKind>;

/// Whether one of so many calls more of the device fails, and the next one.
pub(crate) fn fails_still<D: Device>(device: &mut D, calls: u64) -> bool {
    for _ in 0..calls.saturating_add(1) {
        if device.read(0, &mut [0; BLOCK]).is_err() {
            return true;
        }
    }
    false
}
