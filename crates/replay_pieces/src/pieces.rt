//! The functions that the three-point solvers share: their arguments, then the answer, before one
//! that may be missing a word that says whether it is there; whether a pose was pushed, the count
//! says.
ghost use Rattle.std.specs.Prelude.{◌≡◌};
ghost use Rattle.replay_pieces.specs.PieceRecords.{refined_agrees, refine_holds, ray_holds};
ghost use Rattle.replay_pieces.specs.PieceRecords.{near_holds, project_holds, basis_holds};
ghost use Rattle.replay_pieces.specs.PieceRecords.{edges_hold, piece_holds, piece_words};

use crate::push::push_holds;
use frames::cosines::Cosines;
use frames::squared_edges::SquaredEdges;
use linalg::matrix3::Matrix3;
use linalg::vector3::Vector3;
use p3p_common::has_near_orthonormal_columns::has_near_orthonormal_columns;
use p3p_common::project_to_rotation::project_to_rotation;
use p3p_common::ray_fits::ray_fits;
use p3p_common::rotation_from_edges::rotation_from_edges;
use p3p_common::world_basis_inverse::world_basis_inverse;
use refinement::refine_depths::{Refined, refine_depths};
use replay_records::Record;
use replay_records::agreement::{Compared, option_agrees};
use replay_records::contents::Stored;
use replay_records::replayed::Replayed;

#[derive(Clone, Copy, Debug, PartialEq, Eq)]
pub enum Piece {
    Refine,
    Ray,
    Near,
    Project,
    WorldBasis,
    Edges,
    Push,
}

#[tactic(auto, unfolding(crate::specs::PieceRecords::refined_agrees))]
fn refined_agrees(refined: Refined, s: &Record) -> bool
    ensures { result ≡ refined_agrees refined s.now }
{
    let Refined { depths, updates } = refined;
    updates.agrees(s, 80) & depths.agrees(s, 88)
}

// Depths, squared edges, cosines and the limit; the updates and the depths.
#[tactic(auto, unfolding(crate::specs::PieceRecords::refine_holds))]
fn refine_holds(s: &Record) -> bool
    ensures { result ≡ refine_holds s.now }
{
    let depths = Vector3::read(s, 0);
    let squares = SquaredEdges::read(s, 24);
    let cosines = Cosines::read(s, 48);
    let limit = u32::read(s, 72);
    refined_agrees(refine_depths(depths, squares, cosines, limit), s)
}

// The camera point and the bearing; whether they fit.
#[tactic(auto, unfolding(crate::specs::PieceRecords::ray_holds))]
fn ray_holds(s: &Record) -> bool
    ensures { result ≡ ray_holds s.now }
{
    let camera = Vector3::read(s, 0);
    let bearing = Vector3::read(s, 24);
    ray_fits(camera, bearing).agrees(s, 48)
}

// The matrix; whether it is near a rotation.
#[tactic(auto, unfolding(crate::specs::PieceRecords::near_holds))]
fn near_holds(s: &Record) -> bool
    ensures { result ≡ near_holds s.now }
{
    has_near_orthonormal_columns(Matrix3::read(s, 0)).agrees(s, 72)
}

// The matrix; whether there is a rotation, and the rotation.
#[tactic(auto, unfolding(crate::specs::PieceRecords::project_holds))]
fn project_holds(s: &Record) -> bool
    ensures { result ≡ project_holds s.now }
{
    option_agrees(project_to_rotation(Matrix3::read(s, 0)), s, 72)
}

// Two edges; whether there is an inverse, and the inverse.
#[tactic(auto, unfolding(crate::specs::PieceRecords::basis_holds))]
fn basis_holds(s: &Record) -> bool
    ensures { result ≡ basis_holds s.now }
{
    let first = Vector3::read(s, 0);
    let second = Vector3::read(s, 24);
    option_agrees(world_basis_inverse(first, second), s, 48)
}

// Two edges and the inverse; the rotation.
#[tactic(auto, unfolding(crate::specs::PieceRecords::edges_hold))]
fn edges_hold(s: &Record) -> bool
    ensures { result ≡ edges_hold s.now }
{
    let first = Vector3::read(s, 0);
    let second = Vector3::read(s, 24);
    let inverse = Matrix3::read(s, 48);
    rotation_from_edges(first, second, inverse).agrees(s, 120)
}

impl Replayed for Piece {
    ghost words = { piece_words };

    ghost answered = { piece_holds };

    fn length(self) -> usize {
        match self {
            Piece::Refine => 112,
            Piece::Ray => 56,
            Piece::Near => 80,
            Piece::Project => 152,
            Piece::WorldBasis => 128,
            Piece::Edges => 192,
            Piece::Push => 368,
        }
    }

    #[tactic(auto, unfolding(crate::specs::PieceRecords::piece_holds))]
    fn holds(self, s: &Record) -> bool {
        match self {
            Piece::Refine => refine_holds(s),
            Piece::Ray => ray_holds(s),
            Piece::Near => near_holds(s),
            Piece::Project => project_holds(s),
            Piece::WorldBasis => basis_holds(s),
            Piece::Edges => edges_hold(s),
            Piece::Push => push_holds(s),
        }
    }
}
