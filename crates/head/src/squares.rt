//! Sums and differences of squares in floats. Every operation is rounded once, so the order counts, and
//! the operands are named one by one.
ghost use Rattle.std.specs.Prelude.{◌≡◌};
ghost use Rattle.head.specs.Squares.{two_squares, three_squares, squares_difference};

/// `x^2 + y^2`.
pub fn sum_of_two(x: f64, y: f64) -> f64
    ensures { result ≡ two_squares x y }
{
    x * x + y * y
}

/// `x^2 + y^2 + z^2`, the third square added last.
pub fn sum_of_three(x: f64, y: f64, z: f64) -> f64
    ensures { result ≡ three_squares x y z }
{
    sum_of_two(x, y) + z * z
}

/// `x^2 - y^2`, as a product.
pub fn difference(x: f64, y: f64) -> f64
    ensures { result ≡ squares_difference x y }
{
    (x - y) * (x + y)
}
