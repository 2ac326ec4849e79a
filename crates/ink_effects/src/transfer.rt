//! How flow goes on from a content.

ghost use Rattle.std.specs.Prelude.{◌≡◌};
ghost use Rattle.ink_effects.specs.Performs.{after_text, leading, moving};

use ink_model::{Fault, FrameKind, Value};
use ink_stack::CallKind;
use ink_tree::Spot;
use ink_vars::Name;

/// Where flow lands, and whether that enters containers around the place.
#[derive(Clone, Copy)]
pub struct Landing {
    pub place: Spot,
    pub enters: bool,
}

/// A value for the global of a name.
#[derive(Drop)]
pub struct Assignment<'a> {
    pub name: Name<'a>,
    pub value: Value,
}

/// Where flow goes once a content has been performed. A global that the content stores is stored last, after flow has
/// moved and may have followed a choice: a fault on the way leaves the globals as they were.
pub enum Transfer<'a> {
    /// On, after the content.
    Next,
    /// On, after the content, which has written a text: freshness ends in the open section.
    Wrote,
    /// On, after the content, which stores a value in a global.
    Store(Assignment<'a>),
    /// To another place.
    Land(Landing),
    /// To another place, in a frame of its own.
    Call(CallKind, Landing),
    /// Back from such a frame, to after its call, or to a place.
    Return(FrameKind, Option<Landing>),
    /// On, after the content, in two threads.
    Fork,
    /// Out of its thread; in the last one to a safe stop where it is.
    Done,
    /// To a safe stop, and nothing is left of where it was.
    End,
}

/// Written out, so that wherever one is let go, or another takes its place, that is one call, and a proof there does not go
/// through the values that may be stored.
impl Drop for Transfer<'_> {
    #[inline(always)]
    fn drop(self) {
        match self {
            Transfer::Next | Transfer::Wrote => {}
            Transfer::Store(_) => {}
            Transfer::Land(_) => {}
            Transfer::Call(_, _) => {}
            Transfer::Return(_, _) => {}
            Transfer::Fork | Transfer::Done | Transfer::End => {}
        }
    }
}

/// Flow goes on after a content that was performed without a fault.
pub(crate) fn moving<'a>(outcome: Result<(), Fault>) -> Result<Transfer<'a>, Fault>
    ensures { result ≡ moving outcome }
{
    outcome?;
    Ok(Transfer::Next)
}

/// Flow goes on after a content that tells whether it has written a text, which ends freshness.
#[inline(always)]
pub(crate) fn after_text(
    transfer: &mut Transfer<'_>,
    outcome: Result<bool, Fault>,
) -> Result<(), Fault>
    requires { transfer.old ≡ Transfer.Next }
    ensures { leading result transfer.new ≡ after_text outcome }
{
    if outcome? {
        *transfer = Transfer::Wrote;
    }
    Ok(())
}
