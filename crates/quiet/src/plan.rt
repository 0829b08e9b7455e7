// A planner's windows.

// From minute `start` on and before minute `end` the pole sounds by `step` hundredths. Where start is above end the window runs over the
// week's end; where the two are equal it holds no minute. Any numbers may stand here: the questions are asked of them as the planner wrote
// them, since none had to become a narrower number first.
#[repr(C)]
#[derive(Clone, Copy)]
pub struct Window {
    pub start: u32,
    pub end: u32,
    pub step: u32,
}

// The first `count` windows are the plan; the places beyond are never looked at. (It crosses to C, and lies in flash there: an array and a
// count.)
#[repr(C)]
#[derive(Clone, Copy)]
pub struct Plan {
    pub count: u32,
    pub windows: [Window; 64],
}
