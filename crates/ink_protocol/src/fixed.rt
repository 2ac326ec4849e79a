//! The texts of answers that take no memory, each with its newline at the end (docs/PROTOCOL.md, "Answers").
#![tactic(auto, unfolding(ink_model::specs::Protocol::Answer::answer, serde_json::proofs::OnLiterals::serde_json_on_literals))]

ghost use Rattle.std.specs.Prelude.{◌≡◌, []};
ghost use Rattle.ink_model.specs.Protocol.Answer.{Acts, Breaks, Refuses, Shows, answer};
ghost use Rattle.ink_model.specs.declared.fault.Refusal.TheVariants as refusals;
ghost use Rattle.ink_model.specs.declared.value.Value.TheVariants as values;

use ink_model::{Fault, Refusal};

// Of what is done and tells no event.
pub(crate) fn done_text() -> &'static str
    ensures { result.now ≡ answer (Acts []) }
{
    "{\"events\":[]}\n"
}

// Of a truth value.
pub(crate) fn truth_text(truth: bool) -> &'static str
    ensures { result.now ≡ answer (Shows (values.Bool truth)) }
{
    if truth {
        "{\"value\":true}\n"
    } else {
        "{\"value\":false}\n"
    }
}

// Of void.
pub(crate) fn void_text() -> &'static str
    ensures { result.now ≡ answer (Shows values.Void) }
{
    "{\"value\":null}\n"
}

// Of a fault before which no event came.
pub(crate) fn fault_text(fault: Fault) -> &'static str
    ensures { result.now ≡ answer (Breaks fault []) }
{
    match fault {
        Fault::StackEmpty => "{\"events\":[],\"fault\":\"StackEmpty\"}\n",
        Fault::BadOperands => "{\"events\":[],\"fault\":\"BadOperands\"}\n",
        Fault::Divide => "{\"events\":[],\"fault\":\"Divide\"}\n",
        Fault::BadMode => "{\"events\":[],\"fault\":\"BadMode\"}\n",
        Fault::BadPop => "{\"events\":[],\"fault\":\"BadPop\"}\n",
        Fault::BadTarget => "{\"events\":[],\"fault\":\"BadTarget\"}\n",
        Fault::BadPointer => "{\"events\":[],\"fault\":\"BadPointer\"}\n",
        Fault::NotCounted => "{\"events\":[],\"fault\":\"NotCounted\"}\n",
        Fault::NoTemp => "{\"events\":[],\"fault\":\"NoTemp\"}\n",
        Fault::UnsafeInString => "{\"events\":[],\"fault\":\"UnsafeInString\"}\n",
        Fault::Unbound => "{\"events\":[],\"fault\":\"Unbound\"}\n",
        Fault::HostRefused => "{\"events\":[],\"fault\":\"HostRefused\"}\n",
        Fault::StopInString => "{\"events\":[],\"fault\":\"StopInString\"}\n",
        Fault::TooDeep => "{\"events\":[],\"fault\":\"TooDeep\"}\n",
        Fault::OutOfSteps => "{\"events\":[],\"fault\":\"OutOfSteps\"}\n",
        Fault::OutOfMemory => "{\"events\":[],\"fault\":\"OutOfMemory\"}\n",
    }
}

// Of a refusal.
pub(crate) fn refusal_text(refusal: Refusal) -> &'static str
    ensures { result.now ≡ answer (Refuses refusal) }
{
    match refusal {
        Refusal::CannotContinue => "{\"refused\":\"CannotContinue\"}\n",
        Refusal::NotAChoice => "{\"refused\":\"NotAChoice\"}\n",
        Refusal::NoSuchVariable => "{\"refused\":\"NoSuchVariable\"}\n",
        Refusal::NoSuchPath => "{\"refused\":\"NoSuchPath\"}\n",
        Refusal::BadValue => "{\"refused\":\"BadValue\"}\n",
        Refusal::BadSave => "{\"refused\":\"BadSave\"}\n",
        Refusal::BadCommand => "{\"refused\":\"BadCommand\"}\n",
        Refusal::NoSuchFlow => "{\"refused\":\"NoSuchFlow\"}\n",
        Refusal::DefaultFlow => "{\"refused\":\"DefaultFlow\"}\n",
        Refusal::TooManyFlows => "{\"refused\":\"TooManyFlows\"}\n",
        Refusal::Broken(fault) => broken_text(fault),
        Refusal::OutOfMemory => "{\"refused\":\"OutOfMemory\"}\n",
    }
}

// Of a refusal by a player that a fault broke.
fn broken_text(fault: Fault) -> &'static str
    ensures { result.now ≡ answer (Refuses (refusals.Broken fault)) }
{
    match fault {
        Fault::StackEmpty => "{\"fault\":\"StackEmpty\",\"refused\":\"Broken\"}\n",
        Fault::BadOperands => "{\"fault\":\"BadOperands\",\"refused\":\"Broken\"}\n",
        Fault::Divide => "{\"fault\":\"Divide\",\"refused\":\"Broken\"}\n",
        Fault::BadMode => "{\"fault\":\"BadMode\",\"refused\":\"Broken\"}\n",
        Fault::BadPop => "{\"fault\":\"BadPop\",\"refused\":\"Broken\"}\n",
        Fault::BadTarget => "{\"fault\":\"BadTarget\",\"refused\":\"Broken\"}\n",
        Fault::BadPointer => "{\"fault\":\"BadPointer\",\"refused\":\"Broken\"}\n",
        Fault::NotCounted => "{\"fault\":\"NotCounted\",\"refused\":\"Broken\"}\n",
        Fault::NoTemp => "{\"fault\":\"NoTemp\",\"refused\":\"Broken\"}\n",
        Fault::UnsafeInString => "{\"fault\":\"UnsafeInString\",\"refused\":\"Broken\"}\n",
        Fault::Unbound => "{\"fault\":\"Unbound\",\"refused\":\"Broken\"}\n",
        Fault::HostRefused => "{\"fault\":\"HostRefused\",\"refused\":\"Broken\"}\n",
        Fault::StopInString => "{\"fault\":\"StopInString\",\"refused\":\"Broken\"}\n",
        Fault::TooDeep => "{\"fault\":\"TooDeep\",\"refused\":\"Broken\"}\n",
        Fault::OutOfSteps => "{\"fault\":\"OutOfSteps\",\"refused\":\"Broken\"}\n",
        Fault::OutOfMemory => "{\"fault\":\"OutOfMemory\",\"refused\":\"Broken\"}\n",
    }
}
