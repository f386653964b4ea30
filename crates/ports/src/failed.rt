// A fault of a device.

/// A device has failed. A call answers it only where the count of faults of the device rose in
/// the call, or stands at its last value, 2^64 - 1.
#[derive(Clone, Copy, Debug, PartialEq, Eq, thiserror::Error)]
#[error("the device has failed")]
pub struct Failed;
