// A cell of the plane.
ghost use Rattle.std.specs.Prelude.{◌≡◌, MatchOption};
ghost use Rattle.geometry.specs.Picture.{InPlane};

#[derive(Clone, Copy)]
pub(crate) struct Cell {
    pub(crate) x: u64,
    pub(crate) y: u64,
    pub(crate) ghost in_plane: { InPlane x y },
}

impl Cell {
    pub(crate) fn new(x: u64, y: u64) -> Option<Cell>
        ensures { MatchOption result (InPlane x y → ⊥) (λ c. (c.x ≡ x) × (c.y ≡ y)) }
    {
        if table::in_plane(x, y) {
            Some(Cell { x, y })
        } else {
            None
        }
    }
}
