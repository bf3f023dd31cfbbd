use cycle_sim::Sim;
use lane_sim::Lanes;

/// A plain simulator, or one of the eight lanes of another.
#[derive(Clone, Copy)]
pub enum SimulatorKind<'a> {
    Plain(&'a Sim),
    Lane(&'a Lanes, u8),
}
