//! The objects of a host: functions that a story calls, and watchers of its globals.

ghost use Rattle.std.specs.Prelude.{◌≡◌, ℕ, ◌≢◌, ◌++◌, ◌∷◌, [], Bool, false, true, List, Option, None, Some, Ok, Err, IfOk, OnOk, OnErr, not};
ghost use Rattle.ink_model.specs.declared.host.Given.{Given as Answer};
ghost use Rattle.ink_model.specs.declared.host.HostFault.TheVariants as fault;
ghost use Rattle.ink_model.specs.declared.value.Value.{Value as Data};
ghost use Rattle.ink_host.specs.declared.objects.Called.{Called as Call};
ghost use Rattle.ink_host.specs.declared.objects.Seen.{Seen as Sight};
ghost use Rattle.ink_host.specs.Desk.{refusals_after};
ghost use Rattle.ink_host.specs.Telling.{Watching, begun, round_ended, refused, change_taken};

use ink_model::{Given, HostFault, Seq, Text, Value};
use std::alloc::{AllocError, Global};

/// A call of a turn function, as the function itself notes it: which event it is, with what, and what it gave, nothing where
/// it refused.
#[derive(Debug, Drop)]
pub struct Called {
    pub stamp: u64,
    pub arguments: Seq<Value>,
    pub gave: Option<Given>,
}

/// Copies of values, as a function notes its arguments. The one error is a refused request for memory, or a count of owners
/// that is full, and comes only where there are values.
pub fn copied_values(alloc: Global, values: &[Value]) -> Result<Seq<Value>, AllocError>
    ensures copies { IfOk result (λ copies. copies ≡ values.now) }
    ensures memory { OnErr result (values.now ≢ []) }
{
    let mut copies = Vec::with_capacity(alloc, values.len())?;
    for value in values {
        copies.push(value.clone_in(alloc)?)?;
    }
    Ok(Seq::from_vec(copies))
}

/// A new value of a global, as a watcher notes it: which event it is, the name of the global, and its value.
#[derive(Debug, Drop)]
pub struct Seen {
    pub stamp: u64,
    pub name: Text,
    pub value: Value,
}

/// A function that changes nothing, so that a story may call it at any time and as often as it likes.
pub trait PureFn {
    /// What it answers to arguments, which is nothing where it refuses them.
    ghost meaning: { Self → List Data → Option Answer };

    /// To which arguments it may find no memory for its answer: to any, where it says nothing of it.
    ghost may_lack: { Self → List Data → Bool } = { λ function arguments. true };

    /// Answers. `Refused` where it has no answer to these arguments, `OutOfMemory` where it was refused memory.
    fn ask(&self, arguments: &[Value]) -> Result<Given, HostFault>
        ensures answer { (g : Answer) → result ≡ Ok g → meaning self.now arguments.now ≡ Some g }
        ensures refused { result ≡ Err fault.Refused → meaning self.now arguments.now ≡ None }
        ensures memory { result ≡ Err fault.OutOfMemory → may_lack self.now arguments.now ≡ true };
}

/// A function that may act. It is called once for each time that the story comes to it.
pub trait TurnFn {
    /// The calls that it answered or refused.
    ghost log: { Self → List Call };

    /// How often it was refused memory.
    ghost refusals: { Self → ℕ };

    /// Acts, and answers. `Refused` where it refuses the call, `OutOfMemory` where it was refused memory, and then it has not
    /// acted.
    fn call(&mut self, stamp: u64, arguments: &[Value]) -> Result<Given, HostFault>
        ensures answer { (g : Answer) → result ≡ Ok g → log self.new ≡ log self.old ++ (record { stamp = stamp; arguments = arguments.now; gave = Some g }) ∷ [] }
        ensures refused { result ≡ Err fault.Refused → log self.new ≡ log self.old ++ (record { stamp = stamp; arguments = arguments.now; gave = None }) ∷ [] }
        ensures memory { result ≡ Err fault.OutOfMemory → log self.new ≡ log self.old }
        ensures refusals { refusals self.new ≡ refusals_after result (refusals self.old) };
}

/// Who is told the new values of a global. Its methods may be called at any time.
pub trait Watcher {
    /// What it was told, whether it is at rest, and how often it was begun, ended and refused memory.
    ghost state: { Self → Watching };

    /// Something is about to be told.
    fn begin(&mut self)
        ensures { state self.new ≡ begun (state self.old) };

    /// A global has a new value. The one error is a refused request for memory, and then it was not told. Without `begin` before
    /// it, this call promises only that nothing is forgotten which was told before.
    fn changed(&mut self, stamp: u64, name: &str, value: &Value) -> Result<(), AllocError>
        ensures told { (state self.old).resting ≡ false → OnOk result (state self.new ≡ change_taken (record { stamp = stamp; name = name.now; value = value.now }) (state self.old)) }
        ensures untold { (state self.old).resting ≡ false → OnErr result (state self.new ≡ refused (state self.old)) }
        ensures kept { (more : List Sight) × ((state self.new).log ≡ (state self.old).log ++ more) };

    /// All is told.
    fn end(&mut self)
        ensures { state self.new ≡ round_ended (state self.old) };
}

/// A function that is bound to a name.
#[derive(Debug, Drop)]
pub enum Bound<P, T> {
    Pure(P),
    Turn(T),
}

/// Which kind of function is bound to a name.
#[derive(Clone, Copy, Debug, PartialEq, Eq)]
pub enum FnKind {
    Pure,
    Turn,
}

/// Stands for an object where a host has none: nothing makes one, so that the desk of `Nobody` has nothing bound and nobody
/// who watches. It would find no memory at any call.
#[derive(Drop)]
pub struct Nobody {
    is_told: bool,
    begins: u64,
    ends: u64,
    refusals: u64,
}

impl PureFn for Nobody {
    ghost meaning = { λ nobody arguments. None };

    fn ask(&self, _arguments: &[Value]) -> Result<Given, HostFault> {
        Err(HostFault::OutOfMemory)
    }
}

impl TurnFn for Nobody {
    ghost log = { λ nobody. [] };

    ghost refusals = { λ nobody. nobody.refusals };

    fn call(&mut self, _stamp: u64, _arguments: &[Value]) -> Result<Given, HostFault> {
        self.refusals = self.refusals.wrapping_add(1);
        Err(HostFault::OutOfMemory)
    }
}

impl Watcher for Nobody {
    ghost state = { λ n. record { log = []; resting = not n.is_told; begins = n.begins; ends = n.ends; refusals = n.refusals } };

    fn begin(&mut self) {
        self.is_told = true;
        self.begins = self.begins.wrapping_add(1);
    }

    fn changed(&mut self, _stamp: u64, _name: &str, _value: &Value) -> Result<(), AllocError> {
        self.refusals = self.refusals.wrapping_add(1);
        Err(AllocError)
    }

    fn end(&mut self) {
        self.is_told = false;
        self.ends = self.ends.wrapping_add(1);
    }
}
