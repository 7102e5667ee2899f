use std::sync::Wait;

/// What is told of the progress of lanes, and may hold them up. A gate answers nothing.
///
/// Lanes and turns count from 0.
pub trait Gate: Sync {
    /// Called before each command of a lane, and once more, with the number of its commands as `turn`,
    /// after the lane's last command was answered.
    fn pass<R: Wait>(&self, rt: &R, lane: u32, turn: u32);

    /// Called after a delivery was accepted by the check and before its installation.
    fn checked<R: Wait>(&self, rt: &R, lane: u32, turn: u32);

    /// Called directly before a lane asks for an agreement, an installation or an eviction. Where what it
    /// asks stands in a lock, the lane holds that lock then.
    fn locked<R: Wait>(&self, rt: &R, lane: u32, turn: u32);
}

/// The gate that holds nobody up.
#[derive(Clone, Copy, Debug)]
pub struct OpenGate;

impl Gate for OpenGate {
    fn pass<R: Wait>(&self, _rt: &R, _lane: u32, _turn: u32) {}

    fn checked<R: Wait>(&self, _rt: &R, _lane: u32, _turn: u32) {}

    fn locked<R: Wait>(&self, _rt: &R, _lane: u32, _turn: u32) {}
}
