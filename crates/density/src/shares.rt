// The density of a window, and its share as a float.
ghost use Rattle.std.specs.Prelude.{◌≡◌, ◌≤◌, ◌^◌};
ghost use Rattle.density.specs.Shares.{quotient, density_of, share_of};

// How much of one window is metal: the form that 01 names by place.
#[derive(Clone, Copy)]
pub enum Density {
    Bare,
    Filled,
    Share(f64),
}

// The covered cells of a window over its area: one division, rounded once.
fn quotient(covered: u64, area: u64) -> f64
    requires { (covered ≤ 2 ^ 50) × (area ≤ 2 ^ 50) }
    ensures { result ≡ quotient covered area }
{
    (covered as f64) / (area as f64)
}

fn density_of(count: u64, cells: u64) -> Density
    requires { (count ≤ 2 ^ 50) × (cells ≤ 2 ^ 50) }
    ensures { result ≡ density_of count cells }
{
    if count == 0 {
        Density::Bare
    } else if count == cells {
        Density::Filled
    } else {
        Density::Share(quotient(count, cells))
    }
}

// 0.0 for Bare and 1.0 for Filled.
pub(crate) fn share(count: u64, cells: u64) -> f64
    requires { (count ≤ 2 ^ 50) × (cells ≤ 2 ^ 50) }
    ensures { result ≡ share_of count cells }
{
    match density_of(count, cells) {
        Density::Bare => 0.0,
        Density::Filled => 1.0,
        Density::Share(share) => share,
    }
}
