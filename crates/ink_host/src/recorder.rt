//! The notes of a turn function.

ghost use Rattle.std.specs.Prelude.{◌≡◌, ◌≢◌, ◌⊎◌, ◌++◌, ◌∷◌, [], None, Some, false, true, vec_capacity, vec_len, IfErr, IfOk, OnErr, OnOk};
ghost use Rattle.ink_host.specs.Desk.{counted};
ghost use Rattle.ink_model.specs.Host.Bindings.{shares};
ghost use Rattle.ink_model.specs.declared.host.HostFault.TheVariants as fault;

use crate::objects::{Called, copied_values};
use ink_model::{Given, HostFault, Seq, Value};
use std::alloc::Global;
use std::marker::Model;

/// The notes of a turn function: its calls, and how often it was refused memory. A function of a host's own holds one. At a
/// call it first opens the call, which makes all room that is needed; then it acts, and answers or refuses the call. Its log and
/// its refusals are then those of its notes.
#[derive(Drop)]
pub struct Recorder {
    calls: Vec<Called>,
    refusals: u64,
    alloc: Global,
}

/// A call that is neither answered nor refused yet.
#[derive(Drop)]
pub struct OpenCall {
    stamp: u64,
    arguments: Seq<Value>,
}

impl Model for Recorder {
    ghost use Rattle.std.specs.Prelude.{nat_lt, vec_capacity, vec_len};
    ghost use Rattle.ink_host.specs.Recording.{Recording};

    ghost Value = { Recording };

    ghost view = { λ r. record { log = r.calls.items; refusals = r.refusals; has_room = nat_lt (vec_len r.calls) (vec_capacity r.calls) } };
}

impl Recorder {
    /// The notes of a function that was not called yet. Takes no memory.
    pub fn new(alloc: Global) -> Recorder
        ensures log { result.log ≡ [] }
        ensures refusals { result.refusals ≡ 0 }
    {
        Recorder {
            calls: Vec::new(alloc),
            refusals: 0,
            alloc,
        }
    }

    /// The calls that were answered or refused, in order.
    pub fn calls(&self) -> &[Called]
        ensures { result.now ≡ self.now.log }
    {
        &self.calls
    }

    /// Opens a call, with room for its notes. The one error is `OutOfMemory`, where memory for them was refused, and it is
    /// counted. Memory is asked for only where there are arguments, or no room for a call more.
    pub fn open(&mut self, stamp: u64, arguments: &[Value]) -> Result<OpenCall, HostFault>
        ensures call { IfOk result (λ call. call ≡ record { stamp = stamp; arguments = arguments.now }) }
        ensures room { OnOk result (self.new.has_room ≡ true) }
        ensures stays { OnErr result (self.new.has_room ≡ self.old.has_room) }
        ensures log { self.new.log ≡ self.old.log }
        ensures kept { OnOk result (self.new.refusals ≡ self.old.refusals) }
        ensures counts { OnErr result (self.new.refusals ≡ counted self.old.refusals) }
        ensures memory { OnErr result ((arguments.now ≢ []) ⊎ (self.old.has_room ≡ false)) }
        ensures fault { IfErr result (λ f. f ≡ fault.OutOfMemory) }
    {
        let Ok(arguments) = copied_values(self.alloc, arguments) else {
            return Err(self.lack());
        };
        if self.calls.reserve(1).is_err() {
            return Err(self.lack());
        }
        Ok(OpenCall { stamp, arguments })
    }

    /// Answers an open call, and notes it. The one error is `OutOfMemory`, where a text that is given can have no further owner;
    /// then the call is not noted, and the refusal is counted.
    pub fn answer(&mut self, call: OpenCall, given: Given) -> Result<Given, HostFault>
        requires { self.old.has_room ≡ true }
        ensures answer { IfOk result (λ answer. answer ≡ given) }
        ensures noted { OnOk result (self.new.log ≡ self.old.log ++ (record { stamp = call.stamp; arguments = call.arguments; gave = Some given }) ∷ []) }
        ensures kept { OnOk result (self.new.refusals ≡ self.old.refusals) }
        ensures memory { OnErr result (shares given) }
        ensures lost { OnErr result (self.new.log ≡ self.old.log) }
        ensures counts { OnErr result (self.new.refusals ≡ counted self.old.refusals) }
        ensures fault { IfErr result (λ f. f ≡ fault.OutOfMemory) }
    {
        let Ok(answer) = given.clone_in(self.alloc) else {
            return Err(self.lack());
        };
        let OpenCall { stamp, arguments } = call;
        self.calls.push_reserved(Called {
            stamp,
            arguments,
            gave: Some(given),
        });
        Ok(answer)
    }

    /// Refuses an open call, and notes it.
    pub fn refuse(&mut self, call: OpenCall) -> HostFault
        requires { self.old.has_room ≡ true }
        ensures fault { result ≡ fault.Refused }
        ensures noted { self.new.log ≡ self.old.log ++ (record { stamp = call.stamp; arguments = call.arguments; gave = None }) ∷ [] }
        ensures kept { self.new.refusals ≡ self.old.refusals }
    {
        let OpenCall { stamp, arguments } = call;
        self.calls.push_reserved(Called {
            stamp,
            arguments,
            gave: None,
        });
        HostFault::Refused
    }

    /// Counts that the function itself was refused memory, before it acted.
    pub fn lack(&mut self) -> HostFault
        ensures fault { result ≡ fault.OutOfMemory }
        ensures log { self.new.log ≡ self.old.log }
        ensures counts { self.new.refusals ≡ counted self.old.refusals }
        ensures room { self.new.has_room ≡ self.old.has_room }
    {
        self.refusals = self.refusals.wrapping_add(1);
        HostFault::OutOfMemory
    }
}
