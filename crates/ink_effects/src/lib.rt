//! What contents do to a flow, to the text and to the globals; also containers that are entered, and calls of the host.
#![tactic(auto)]

mod calls;
mod choices;
mod control;
mod counts;
mod diverts;
mod evaluation;
mod frequent;
mod host;
mod leaf;
mod noting;
mod operands;
mod sections;
mod shared;
mod text;
mod transfer;
mod variables;
mod visits;

pub use calls::tunnel_landing;
pub use diverts::{number_of, wanted_landing};
pub use frequent::{Frequent, frequent_kind, perform_frequent};
pub use host::{External, call_external, external_in, is_external, would_call};
pub use leaf::perform_leaf;
pub use noting::{ready_choices, ready_stack, ready_threads};
pub use operands::{take, top};
pub use shared::Shared;
pub use text::write_text;
pub use transfer::{Assignment, Landing, Transfer};
pub use visits::{enter_landed, enter_passed, visits_of};
