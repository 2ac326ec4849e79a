//! Frames.

/// What a frame was pushed for.
#[derive(Clone, Copy, Debug, PartialEq, Eq)]
pub enum FrameKind {
    Base,
    Function,
    Tunnel,
}
