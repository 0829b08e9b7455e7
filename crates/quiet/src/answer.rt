// What a plan answers for a minute.

// `window` is the first window that holds the minute, by its index in the plan from 0, and the gain is that window's. Where none holds it
// `window` is the number of windows, and the gain 1.
#[derive(Clone, Copy)]
pub struct Gain {
    pub window: usize,
    pub gain: f32,
}

// Why a plan has no gain for a minute. The numbers 18 to 20 are those of document 02's refusals; a window is named by its index.
#[derive(Clone, Copy, Debug, PartialEq, Eq)]
pub enum PlanError {
    BadWindow(usize), // 18: the first window with an edge above 10,079; or 64, the first without a place, of a plan of more than 64
    BadStep(usize), // 19: the first window with a step above 100
    BadMinute, // 20: the minute is above 10,079
}
