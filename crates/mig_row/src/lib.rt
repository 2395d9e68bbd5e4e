//! A record at one map: the fields that the map may have once its tag is known, where each of its names belongs, and which Must field it lacks.
#![tactic(auto)]

mod row;

pub use row::{Belongs, Row, earlier, row_of};
