// The types of a question and of a composer's answer. No function: the definitions are in specs/.
#![tactic(auto)]

// Whether masks count: not chosen, on, off.
#[derive(Clone, Copy, Debug, PartialEq, Eq)]
pub enum Masks {
    NotChosen,
    On,
    Off,
}

// The question but for its starts and the background: the asked pixel type, the window, and the masks choice.
#[derive(Clone, Copy)]
pub struct WindowRequest {
    pub pixel_type: u64,
    pub left: i32,
    pub top: i32,
    pub width: u64,
    pub height: u64,
    pub masks: Masks,
}

// What a composer answers of a plane that it painted: how many pixels are covered, and how many it stored.
#[derive(Clone, Copy)]
pub struct Counts {
    pub covered: u64,
    pub stored: u64,
}
