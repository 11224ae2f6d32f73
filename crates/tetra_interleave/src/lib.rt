//! The interleavers of the lower MAC: block interleavers and the matrix of speech. Nothing here takes memory.
#![tactic(auto)]

mod block;
mod laws;
mod matrix;

pub use block::Block;
pub use laws::{
    all_are_undone, blocks_are_one_to_one, matrices_are_one_to_one, stay_none_wrong, stay_undamaged,
};
pub use matrix::Matrix;
