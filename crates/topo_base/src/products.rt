ghost use Rattle.std.specs.Prelude.{◌≡◌, ◌^◌, ◌-ℤ◌, ◌*ℤ◌};
ghost use Rattle.topo_base.specs.Within.{IsWithin};

/// The product of two differences of coordinates, each at most 2^41 from 0.
pub fn product(a: i64, b: i64) -> i128
    requires a_in { IsWithin (2 ^ 41) a }
    requires b_in { IsWithin (2 ^ 41) b }
    ensures value { result ≡ a *ℤ b }
    ensures within { IsWithin (2 ^ 82) result }
{
    a as i128 * b as i128
}

/// The cross product of (ux, uy) and (vx, vy): above 0 where the second is to the left of the first.
/// Each part is at most 2^41 from 0.
pub fn cross_product(ux: i64, uy: i64, vx: i64, vy: i64) -> i128
    requires ux_in { IsWithin (2 ^ 41) ux }
    requires uy_in { IsWithin (2 ^ 41) uy }
    requires vx_in { IsWithin (2 ^ 41) vx }
    requires vy_in { IsWithin (2 ^ 41) vy }
    ensures value { result ≡ ux *ℤ vy -ℤ uy *ℤ vx }
    ensures within { IsWithin (2 ^ 83) result }
{
    let left = product(ux, vy);
    let right = product(uy, vx);
    left - right
}
