//! The eigenvectors: the matrix, for one vector its eigenvalue too, then whether there are any, the
//! vectors, and for the whole system the values and whether the pair of them was lifted.
ghost use Rattle.std.specs.Prelude.{◌≡◌};
ghost use Rattle.replay_stages.specs.EigenRecords.{system_agrees, system_holds, pairs_agree};
ghost use Rattle.replay_stages.specs.EigenRecords.{pairs_hold, row_crosses_hold};

use eigen::eigenpairs::{Eigenpairs, eigenpairs_with_known_zero};
use eigen::known_zero::{Eigensystem, eig_with_known_zero};
use eigen::row_crosses::eigenvector_from_row_crosses;
use linalg::matrix3::Matrix3;
use polynomial::pair::RootPair;
use replay_records::Record;
use replay_records::agreement::{Compared, option_agrees};
use replay_records::contents::Stored;

fn system_agrees(system: Option<Eigensystem>, s: &Record) -> bool
    ensures { result ≡ system_agrees system s.now }
{
    match system {
        Some(
            Eigensystem {
                vectors,
                values,
                lifted,
            },
        ) => {
            1u64.agrees(s, 72)
                & vectors.agrees(s, 80)
                & values.agrees(s, 152)
                & lifted.agrees(s, 176)
        }
        None => 0u64.agrees(s, 72),
    }
}

#[tactic(auto, unfolding(crate::specs::EigenRecords::system_holds))]
pub(crate) fn system_holds(s: &Record) -> bool
    ensures { result ≡ system_holds s.now }
{
    system_agrees(eig_with_known_zero(Matrix3::read(s, 0)), s)
}

fn pairs_agree(pairs: Option<Eigenpairs>, s: &Record) -> bool
    ensures { result ≡ pairs_agree pairs s.now }
{
    match pairs {
        Some(
            Eigenpairs {
                column0,
                column1,
                values,
            },
        ) => {
            let RootPair {
                first,
                second,
                lifted,
            } = values;
            1u64.agrees(s, 72)
                & column0.agrees(s, 80)
                & column1.agrees(s, 104)
                & first.agrees(s, 152)
                & second.agrees(s, 160)
                & lifted.agrees(s, 176)
        }
        None => 0u64.agrees(s, 72),
    }
}

// The two pairs that the solve reads of a system.
#[tactic(auto, unfolding(crate::specs::EigenRecords::pairs_hold))]
pub(crate) fn pairs_hold(s: &Record) -> bool
    ensures { result ≡ pairs_hold s.now }
{
    pairs_agree(eigenpairs_with_known_zero(Matrix3::read(s, 0)), s)
}

#[tactic(auto, unfolding(crate::specs::EigenRecords::row_crosses_hold))]
pub(crate) fn row_crosses_hold(s: &Record) -> bool
    ensures { result ≡ row_crosses_hold s.now }
{
    let matrix = Matrix3::read(s, 0);
    let eigenvalue = f64::read(s, 72);
    option_agrees(eigenvector_from_row_crosses(matrix, eigenvalue), s, 80)
}
