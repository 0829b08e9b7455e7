// The numbers of a block: how long and how wide it is, and how many channels each input has.

// An input of 0 channels is unconnected. Else its slice holds that many channels of the block's length, one after the other.
#[repr(C)]
#[derive(Clone, Copy)]
pub struct Shape {
    pub samples: usize,
    pub channels: usize, // of the output
    pub freq: usize,
    pub g0: usize,
    pub g1: usize,
    pub g2: usize,
    pub g3: usize,
}
