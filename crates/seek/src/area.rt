// The area of a call: four edges on the ruler, as a caller names them.

#[derive(Clone, Copy)]
pub struct Area {
    pub left: u64,
    pub bottom: u64,
    pub right: u64,
    pub top: u64,
}
