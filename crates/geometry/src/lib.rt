// Pure mathematics of tiles: the definitions and laws stand in specs/. What code hands on from layer to layer stands here.
#![tactic(auto)]

// What is painted on a tile, as numbers on the ruler.
#[derive(Clone, Copy)]
pub struct Paint {
    pub kind: u64,
    pub label: u64,
}
