//! Which channels an end of a stream has.

ghost use Rattle.std.specs.Prelude.{◌≡◌, ◌^◌, ◌<◌, ◌≤◌, max};
ghost use Rattle.st_channel.specs.Ports.{HasChannels};

/// The channels of an end of a stream.
#[derive(Clone, Copy)]
pub struct Channels {
    /// The bits of the channel's net.
    pub bits: u8,
    /// The largest channel.
    pub largest: u32,
    pub ghost some: { 1 ≤ bits },
    pub ghost few: { bits ≤ 16 },
    pub ghost fits: { largest < 2 ^ bits },
}

impl Channels {
    /// Those of an end with a channel port of so many bits. Without the port its net has one bit.
    pub fn new(bits: u8, largest: u32) -> Channels
        requires { HasChannels bits largest }
        ensures bits { result.bits ≡ max bits 1 }
        ensures largest { result.largest ≡ largest }
    {
        Channels {
            bits: bits.max(1),
            largest,
        }
    }
}
