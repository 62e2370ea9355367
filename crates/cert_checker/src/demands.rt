//! What a certificate has to show.
use nets::Net;
use pipe_motion::Settings;
use y86_base::Items;

/// What a certificate has to show: that each gate of `want` is true at every pattern of bits of the net's variables.
/// `want` has numbers of gates of `net`. The settings are those at which the gates are demanded; a certificate states
/// them on its second line.
#[derive(Drop)]
pub struct Demands {
    pub settings: Settings,
    pub net: Net,
    pub want: Items<u64>,
}
