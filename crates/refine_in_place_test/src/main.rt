//! Refines a lent triple in two cases, squared edges 2, cosines 0 and one update allowed, and
//! writes of each the count of updates and the depths' bit patterns: from (2, 2, 2) one update, to
//! (1.25, 1.25, 1.25), and from (1, 1, 1) none.
#![tactic(auto)]

use frames::cosines::Cosines;
use frames::squared_edges::SquaredEdges;
use ieee754::bits::to_bits;
use linalg::vector3::Vector3;
use refine_in_place::refine_depths_here;
use refinement::refine_depths::Refined;
use std::io;

// Prints "updates U depths X Y Z". An error is that of the first write that fails: what was written
// before stays written. No other error comes.
fn refine(rt: &impl Print, depth: f64) -> io::Result<()> {
    let depths = Vector3 {
        x: depth,
        y: depth,
        z: depth,
    };
    let squared_edges = SquaredEdges {
        a01: 2.0,
        a02: 2.0,
        a12: 2.0,
    };
    let bearing_cosines = Cosines {
        m01: 0.0,
        m02: 0.0,
        m12: 0.0,
    };
    let Refined { depths, updates } = refine_depths_here(depths, squared_edges, bearing_cosines, 1);
    let Vector3 { x, y, z } = depths;
    let (x, y, z) = (to_bits(x), to_bits(y), to_bits(z));
    println!(rt; "updates {updates} depths {x:016x} {y:016x} {z:016x}")
}

// An error is that of the first write that fails: what was written before stays written, and
// nothing after it is done. No other error comes.
fn main(rt: HostRuntime) -> io::Result<()> {
    refine(&rt, 2.0)?;
    refine(&rt, 1.0)
}
