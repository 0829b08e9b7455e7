// The limits of a plan.
pub const MAX_WINDOWS: usize = 64;

pub const WEEK_MINUTES: u32 = 10080; // the minutes of the week are 0 to 10,079

pub const FULL_STEP: u32 = 100; // loudness steps are 0 to 100
