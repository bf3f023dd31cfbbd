//! Links that are begun and not finished yet, as where many commands go down before their answers come up.

use command_nets::CommandNets;

/// A link between its two calls.
#[derive(Drop)]
pub struct Begun<L, H> {
    pub link: L,
    pub from: CommandNets,
    pub to: CommandNets,
    pub kept: H,
}
