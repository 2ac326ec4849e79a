//! What frames are pushed for.

ghost use Rattle.std.specs.Prelude.{◌≡◌};
ghost use Rattle.ink_stack.specs.Calls.{frame_kind};

use ink_model::FrameKind;

/// What a frame is pushed for: it is never a base.
#[derive(Clone, Copy)]
pub enum CallKind {
    Function,
    Tunnel,
}

impl CallKind {
    pub(crate) fn frame_kind(self) -> FrameKind
        ensures { result ≡ frame_kind self }
    {
        match self {
            CallKind::Function => FrameKind::Function,
            CallKind::Tunnel => FrameKind::Tunnel,
        }
    }
}
