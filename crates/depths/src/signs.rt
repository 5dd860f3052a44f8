//! The depth candidates of either sign of the ratio: the loop `for sign in [ratio, -ratio]` of
//! solve_ordered (lambdatwist.rs). Both signs' turns are made before a candidate is stored.
ghost use Rattle.std.specs.Prelude.{◌≡◌};
ghost use Rattle.linalg.specs.Matrices.{column0, column1};
ghost use Rattle.depths.specs.Pushed.{pushed_both};
ghost use Rattle.depths.specs.Signs.{sign_turn, candidates};
ghost use Rattle.depths.specs.Types.{Matrix3};

use crate::candidates::Candidates;
use crate::charts::{ChartDepths, Triangle};
use frames::squared_edges::SquaredEdges;
use linalg::vector3::Vector3;
use orderings::angles::Factors;

/// The turn of one sign of the ratio, by the first two columns of the eigenvectors.
#[tactic(auto, unfolding(crate::specs::Signs::sign_turn))]
pub fn sign_turn(
    triangle: Triangle,
    first_column: Vector3,
    second_column: Vector3,
    sign: f64,
) -> ChartDepths
    ensures { (eigenvectors : Matrix3) (found : Candidates) →
        column0 eigenvectors ≡ first_column →
        column1 eigenvectors ≡ second_column →
        pushed_both found result
        ≡ (sign_turn triangle.squares triangle.factors eigenvectors sign found).value }
{
    triangle.chart(first_column - second_column * sign)
}

/// What a chart gives, appended.
fn push_both(found: &mut Candidates, both: ChartDepths)
    ensures { found.new ≡ pushed_both found.old both }
{
    let ChartDepths {
        lifted,
        first,
        second,
    } = both;
    found.push(first, lifted);
    found.push(second, lifted);
}

/// `lifted` says it of the eigenvalues.
#[tactic(auto, unfolding(crate::specs::Signs::candidates))]
pub fn candidates(
    squares: SquaredEdges,
    factors: Factors,
    first_column: Vector3,
    second_column: Vector3,
    ratio: f64,
    lifted: bool,
) -> Candidates
    ensures { (eigenvectors : Matrix3) →
        column0 eigenvectors ≡ first_column →
        column1 eigenvectors ≡ second_column →
        result ≡ (candidates squares factors eigenvectors ratio lifted).value }
{
    let triangle = Triangle { squares, factors };
    let plus = sign_turn(triangle, first_column, second_column, ratio);
    let minus = sign_turn(triangle, first_column, second_column, -ratio);
    let mut found = Candidates::none(lifted);
    push_both(&mut found, plus);
    push_both(&mut found, minus);
    found
}
