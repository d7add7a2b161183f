//! What the machines come to.

/// What a machine that uses the device has come to.
#[derive(Clone, Copy)]
pub enum DeviceAnswer {
    /// Its next step is one call of the device, which `device_step` makes.
    Device,
    /// It is through, or at rest.
    Through,
}
