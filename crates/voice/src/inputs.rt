// The inputs of a play: the frequency and the four gains.

// Each is a slice that holds its channels, one after the other; how many, the shape says. The five always travel together.
#[derive(Clone, Copy)]
pub struct Inputs<'a> {
    pub freq: &'a [f32],
    pub g0: &'a [f32],
    pub g1: &'a [f32],
    pub g2: &'a [f32],
    pub g3: &'a [f32],
}
