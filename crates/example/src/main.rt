//! The program that README names: the poses of a plate, the one that its fourth target confirms,
//! and where the camera sees a hole that is to be drilled.
#![tactic(auto)]

use choice::choose::choose;
use frames::bearings::Bearings;
use frames::pose::Pose;
use frames::world::World;
use lambdatwist::solve::solve;
use linalg::vector3::Vector3;
use std::io;

// A point of the plate, in metres.
fn point(x: f64, y: f64, z: f64) -> Vector3 {
    Vector3 { x, y, z }
}

// The bearing at which a camera point is seen: a vector of length 1.
fn seen(x: f64, y: f64, z: f64) -> Vector3 {
    let camera = Vector3 { x, y, z };
    camera / camera.norm()
}

// The pose at a place, which counts from 1. (An index would have to be proved to be below four.)
fn at_place(poses: [Pose; 4], place: u32) -> Pose {
    match place {
        1 => poses[0],
        2 => poses[1],
        3 => poses[2],
        _ => poses[3],
    }
}

// Whether the chosen pose puts the fourth target on its bearing: the score is the squared tangent
// of the angle between the two, here at most that of 0.01 degrees. (A pose that puts it behind the
// camera has no score, and is not chosen.)
fn confirmed(score: f64) -> bool {
    score <= 3e-8
}

// An error is that of the write: nothing was written then, or a part of the line. No other error
// comes.
fn main(rt: HostRuntime) -> io::Result<()> {
    // Three targets of the plate, and the bearings at which the camera sees them.
    let world = World {
        p0: point(0.0, 0.0, 0.0),
        p1: point(0.5, 0.0, 0.0),
        p2: point(0.0, 0.375, 0.0),
    };
    let bearings = Bearings {
        f0: seen(-0.25, -0.125, 2.0),
        f1: seen(0.15, -0.125, 2.3),
        f2: seen(-0.25, 0.25, 2.0),
    };
    let answer = solve(world, bearings);

    // The pose that the fourth target confirms. None is chosen of a refused solve, nor where all
    // poses put the target behind the camera.
    let target = point(0.5, 0.375, 0.125);
    let bearing = seen(0.075, 0.25, 2.4);
    let Ok(best) = choose(answer.poses, answer.count, target, bearing) else {
        return println!(rt; "no pose chosen");
    };
    if !confirmed(best.score) {
        return println!(rt; "not confirmed");
    }

    // Where a hole of the plate lies before the camera, in millimetres.
    let pose = at_place(answer.poses, best.place);
    let Vector3 { x, y, z } = pose.camera_point(point(0.25, -0.5, 0.0)) * 1000.0;
    let count = answer.count;
    let place = best.place;
    println!(rt; "poses {count} best {place} hole {x:.0} {y:.0} {z:.0} mm")
}
