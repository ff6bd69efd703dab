// The theory of a composed plane: the definitions are in specs/, their laws in proofs/. No function, and one type.
#![tactic(auto)]

// A rectangle of the plane: a window, or where a tile lies. Coordinates are the signed ones plus 2^31.
#[derive(Clone, Copy)]
pub struct Rect {
    pub left: usize,
    pub top: usize,
    pub width: usize,
    pub height: usize,
}
