//! What a frame consists of, and how it is read from lent doubles: world points, bearings, the
//! squared edges and cosines that the solver takes of them, a pose, and a stored frame with its
//! checking target.
#![tactic(auto)]

pub mod bearings;
pub mod cosines;
pub mod frame;
pub mod lent;
pub mod pose;
pub mod squared_edges;
pub mod world;
