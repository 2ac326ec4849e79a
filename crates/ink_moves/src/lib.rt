//! Where flow goes among frames and threads.
#![tactic(auto)]

mod flow;

pub use flow::{
    MOVING, StepEnd, call, done, end, fork, land, move_off, move_on, move_to, next_of, return_frame,
};
