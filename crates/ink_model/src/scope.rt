//! Where a variable is declared.

/// Where a variable is declared: among the globals, or in the frame that runs.
#[derive(Clone, Copy, PartialEq, Eq)]
pub enum Scope {
    Global,
    Temporary,
}
