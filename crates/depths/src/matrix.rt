//! The matrix that is singular at the cubic's root g: `let matrix = Matrix3::new(..)` of
//! solve_ordered (lambdatwist.rs). It is symmetric, and the Rust writes each entry off the diagonal
//! twice.
ghost use Rattle.std.specs.Prelude.{◌≡◌};
ghost use Rattle.depths.specs.Matrix.{singular_matrix};

use frames::squared_edges::SquaredEdges;
use linalg::matrix3::Matrix3;
use orderings::angles::Factors;

#[tactic(auto, unfolding(crate::specs::Matrix::singular_matrix))]
pub fn singular_matrix(squares: SquaredEdges, factors: Factors, g: f64) -> Matrix3
    ensures { result ≡ (singular_matrix squares factors g).value }
{
    let SquaredEdges { a01, a02, a12 } = squares;
    let Factors { b01, b02, b12 } = factors;
    let m01 = 0.5 * a12 * b01;
    let m02 = -0.5 * a12 * b02 * g;
    let m12 = 0.5 * b12 * (a02 * g - a01);
    Matrix3 {
        m00: a12 * (1.0 - g),
        m01,
        m02,
        m10: m01,
        m11: a12 - a01 + a02 * g,
        m12,
        m20: m02,
        m21: m12,
        m22: g * (a02 - a12) - a01,
    }
}
