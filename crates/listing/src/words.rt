//! The words of a pose: doubles by their bit patterns.
ghost use Rattle.std.specs.Prelude.{◌≡◌, ◌+◌, ◌≤◌, ◌++◌, length};
ghost use Rattle.listing.specs.Lines.{word_of, words_of, pose_words};

use crate::digits::put_word;
use crate::put::put_text;
use arrayvec::ArrayVec;
use frames::pose::Pose;
use ieee754::bits::to_bits;
use linalg::vector3::Vector3;

// Puts a space and the sixteen digits of a double.
#[tactic(auto, unfolding(crate::specs::Lines::word_of))]
fn put_double<const N: usize>(out: &mut ArrayVec<u8, N>, x: f64)
    requires { length out.old.items + 17 ≤ N }
    ensures text { out.new.items ≡ out.old.items ++ word_of x }
    ensures value { length out.new.items ≡ length out.old.items + 17 }
{
    put_text(out, " ");
    put_word(out, to_bits(x));
}

// Puts x, y and z.
#[tactic(auto, unfolding(crate::specs::Lines::words_of))]
fn put_vector<const N: usize>(out: &mut ArrayVec<u8, N>, v: Vector3)
    requires { length out.old.items + 51 ≤ N }
    ensures text { out.new.items ≡ out.old.items ++ words_of v }
    ensures value { length out.new.items ≡ length out.old.items + 51 }
{
    put_double(out, v.x);
    put_double(out, v.y);
    put_double(out, v.z);
}

// Puts the rotation by columns, and the translation.
#[tactic(auto, unfolding(crate::specs::Lines::pose_words))]
pub(crate) fn put_words<const N: usize>(out: &mut ArrayVec<u8, N>, pose: Pose)
    requires { length out.old.items + 204 ≤ N }
    ensures text { out.new.items ≡ out.old.items ++ pose_words pose }
    ensures value { length out.new.items ≡ length out.old.items + 204 }
{
    let Pose {
        rotation,
        translation,
    } = pose;
    put_vector(out, rotation.column0());
    put_vector(out, rotation.column1());
    put_vector(out, rotation.column2());
    put_vector(out, translation);
}
