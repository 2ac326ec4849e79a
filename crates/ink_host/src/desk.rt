//! The desk: what a host has bound and who watches, and what happened.

ghost use Rattle.std.specs.Prelude.{◌≡◌, ◌⊎◌, [], ◌∷◌, List, None, Some, Ok, Err, option_map, string_bytes, true, IfOk, IfErr, IfSome, OnOk, OnErr};
ghost use Rattle.ink_model.specs.Host.Bindings.{shares};
ghost use Rattle.ink_model.specs.declared.fault.Fault.TheVariants as fault;
ghost use Rattle.ink_model.specs.declared.host.Event.{Event as Happening};
ghost use Rattle.ink_model.specs.declared.host.Event.TheVariants as event;
ghost use Rattle.ink_model.specs.declared.host.Given.{Given as Answer};
ghost use Rattle.ink_host.specs.Desk.{DeskView, Grew, StandsAt, answer_of, at, counted, empty_desk, has_rows, kind_of, lacks_of, put, refusals_at, entries_as_rows, value_at, without};
ghost use Rattle.ink_host.specs.Desk as view;
ghost use Rattle.ink_host.specs.Telling.{log_of};
ghost use Rattle.ink_host.specs.declared.objects.Bound.TheVariants as bound;

use crate::objects::{Bound, FnKind, PureFn, TurnFn, Watcher, copied_values};
use crate::rows::{ask_at, call_at, keep, note};
use indexmap::IndexMap;
use ink_model::{Event, Fault, Given, HostFault, Seq, Text, Value};
use std::alloc::Global;
use std::marker::Model;
use std::{fmt, mem};

/// What a name is bound to: a function of this kind, at this place among all that are bound.
#[derive(Clone, Copy, Debug)]
pub struct Found {
    /// Which kind of function it is.
    pub kind: FnKind,
    /// Its place among all that are bound, counted from 0.
    pub place: usize,
}

/// Functions and watchers by name, in the order in which they came, and the events that nobody has taken yet. It is
/// generic in the objects and asks nothing of them but their traits: each that is given is kept or handed back. A host binds
/// objects, looks at them and takes them away; asking, calling and telling them is what a player does with it.
pub struct Desk<P, T, W> {
    pub(crate) functions: IndexMap<String, Bound<P, T>>,
    pub(crate) watchers: IndexMap<String, W>,
    pub(crate) events: Vec<Event>,
    pub(crate) next: u64,
    pub(crate) alloc: Global,
}

impl<P: Drop, T: Drop, W: Drop> Drop for Desk<P, T, W> {
    fn drop(self) {
        let Desk {
            functions: _,
            watchers: _,
            events: _,
            next: _,
            alloc: _,
        } = self;
    }
}

/// Its name alone, whatever the objects on it are.
impl<P, F, O> fmt::Debug for Desk<P, F, O> {
    fn fmt<W: fmt::Write>(&self, f: &mut fmt::Formatter<W>) -> fmt::Result {
        f.debug_struct("Desk").finish_non_exhaustive()
    }
}

impl<P, T, W> Model for Desk<P, T, W> {
    ghost Value = { DeskView P T W };

    ghost view = { λ d. record { functions = entries_as_rows string_bytes (λ b. b) d.functions.entries; watchers = entries_as_rows string_bytes (λ w. w) d.watchers.entries; events = d.events.items; next = d.next } };
}

impl<P, T, W> Desk<P, T, W> {
    /// A desk with nothing bound and nobody who watches, which takes no memory.
    pub fn new(alloc: Global) -> Desk<P, T, W>
        ensures { result ≡ empty_desk }
    {
        Desk {
            functions: IndexMap::new(alloc),
            watchers: IndexMap::new(alloc),
            events: Vec::new(alloc),
            next: 0,
            alloc,
        }
    }

    /// Binds a name to a pure function, and hands back what it was bound to before. The one error is a refused request for
    /// memory, which is made only for a name that is not bound; it hands back the function, and nothing has changed.
    pub fn bind_pure(&mut self, name: &str, object: P) -> Result<Option<Bound<P, T>>, P>
        ensures old { IfOk result (λ old. old ≡ at name.now self.old.functions) }
        ensures kept { OnOk result (self.new ≡ record self.old { functions = put name.now (bound.Pure object) self.old.functions }) }
        ensures back { IfErr result (λ p. p ≡ object) }
        ensures err { OnErr result (self.new ≡ self.old) }
        ensures memory { OnErr result (at name.now self.old.functions ≡ None) }
    {
        match self.bind(name, Bound::Pure(object)) {
            Ok(old) => Ok(old),
            Err(Bound::Pure(object)) => Err(object),
            Err(Bound::Turn(_)) => unreachable!(),
        }
    }

    /// Binds a name to a turn function, and hands back what it was bound to before. The one error is a refused request for
    /// memory, which is made only for a name that is not bound; it hands back the function, and nothing has changed.
    pub fn bind_turn(&mut self, name: &str, object: T) -> Result<Option<Bound<P, T>>, T>
        ensures old { IfOk result (λ old. old ≡ at name.now self.old.functions) }
        ensures kept { OnOk result (self.new ≡ record self.old { functions = put name.now (bound.Turn object) self.old.functions }) }
        ensures back { IfErr result (λ t. t ≡ object) }
        ensures err { OnErr result (self.new ≡ self.old) }
        ensures memory { OnErr result (at name.now self.old.functions ≡ None) }
    {
        match self.bind(name, Bound::Turn(object)) {
            Ok(old) => Ok(old),
            Err(Bound::Turn(object)) => Err(object),
            Err(Bound::Pure(_)) => unreachable!(),
        }
    }

    // Binds a name to a function.
    fn bind(&mut self, name: &str, object: Bound<P, T>) -> Result<Option<Bound<P, T>>, Bound<P, T>>
        ensures old { IfOk result (λ old. old ≡ at name.now self.old.functions) }
        ensures kept { OnOk result (self.new ≡ record self.old { functions = put name.now object self.old.functions }) }
        ensures back { IfErr result (λ b. b ≡ object) }
        ensures err { OnErr result (self.new ≡ self.old) }
        ensures memory { OnErr result (at name.now self.old.functions ≡ None) }
    {
        keep(&mut self.functions, self.alloc, name, object)
    }

    /// Takes what a name is bound to away and hands it back; none where it is not bound. Takes no memory.
    pub fn unbind(&mut self, name: &str) -> Option<Bound<P, T>>
        ensures old { result ≡ at name.now self.old.functions }
        ensures left { self.new ≡ record self.old { functions = without name.now self.old.functions } }
    {
        self.functions.shift_remove(name)
    }

    /// What a name is bound to, and where; none where it is not bound. Takes no memory.
    pub fn find(&self, name: &str) -> Option<Found>
        ensures kind { option_map (λ f. f.kind) result ≡ option_map kind_of (at name.now self.now.functions) }
        ensures place { IfSome result (λ f. StandsAt name.now f.place self.now.functions) }
    {
        let Some((place, _, function)) = self.functions.get_full(name) else {
            return None;
        };
        Some(Found {
            kind: kind_of(function),
            place,
        })
    }

    /// Which kind of function a name is bound to; none where it is not bound. Takes no memory.
    pub fn kind(&self, name: &str) -> Option<FnKind>
        ensures { result ≡ option_map kind_of (at name.now self.now.functions) }
    {
        match self.functions.get(name) {
            None => None,
            Some(Bound::Pure(_)) => Some(FnKind::Pure),
            Some(Bound::Turn(_)) => Some(FnKind::Turn),
        }
    }

    /// What a name is bound to, lent; none where it is not bound. Takes no memory.
    pub fn function(&self, name: &str) -> Option<&Bound<P, T>>
        ensures { option_map (λ b. b.now) result ≡ at name.now self.now.functions }
    {
        self.functions.get(name)
    }

    /// The watcher of a global, lent; none where nobody watches it. Takes no memory.
    pub fn watcher(&self, name: &str) -> Option<&W>
        ensures { option_map (λ w. w.now) result ≡ at name.now self.now.watchers }
    {
        self.watchers.get(name)
    }

    /// Whether somebody watches a global.
    pub fn watches(&self, name: &str) -> bool
        ensures { result ≡ view.watches self.now.watchers name.now }
    {
        self.watchers.contains_key(name)
    }

    /// Whether anybody watches.
    pub fn has_watchers(&self) -> bool
        ensures { result ≡ has_rows self.now.watchers }
    {
        !self.watchers.is_empty()
    }

    /// Hands out the events that happened since they were last taken. Takes no memory.
    pub fn take_events(&mut self) -> Seq<Event>
        ensures events { result ≡ self.old.events }
        ensures rest { self.new ≡ record self.old { events = [] } }
    {
        Seq::from_vec(mem::replace(&mut self.events, Vec::new(self.alloc)))
    }

    /// Begins anew: no events are kept, and the next has the stamp 0.
    pub fn start_anew(&mut self)
        ensures { self.new ≡ record self.old { events = []; next = 0 } }
    {
        self.events.clear();
        self.next = 0;
    }
}

impl<P: PureFn, T, W> Desk<P, T, W> {
    /// Asks the pure function that a name is bound to. `HostRefused` where it has no answer to these arguments, `OutOfMemory`
    /// where it was refused memory, which it says of itself.
    pub fn ask(&self, name: &str, arguments: &[Value]) -> Result<Given, Fault>
        requires { (p : P) × (at name.now self.now.functions ≡ Some (bound.Pure p)) }
        ensures answer { (g : Answer) → result ≡ Ok g → answer_of P.meaning (at name.now self.now.functions) arguments.now ≡ Some g }
        ensures refused { result ≡ Err fault.HostRefused → answer_of P.meaning (at name.now self.now.functions) arguments.now ≡ None }
        ensures memory { result ≡ Err fault.OutOfMemory → lacks_of P.may_lack (at name.now self.now.functions) arguments.now ≡ true }
        ensures faults { IfErr result (λ f. (f ≡ fault.HostRefused) ⊎ (f ≡ fault.OutOfMemory)) }
    {
        match self.find(name) {
            Some(found) => self.ask_found(found.place, arguments),
            None => unreachable!(),
        }
    }

    /// The same of the function at a place, where `find` has found it.
    pub fn ask_found(&self, place: usize, arguments: &[Value]) -> Result<Given, Fault>
        requires { (p : P) × (value_at place self.now.functions ≡ Some (bound.Pure p)) }
        ensures answer { (g : Answer) → result ≡ Ok g → answer_of P.meaning (value_at place self.now.functions) arguments.now ≡ Some g }
        ensures refused { result ≡ Err fault.HostRefused → answer_of P.meaning (value_at place self.now.functions) arguments.now ≡ None }
        ensures memory { result ≡ Err fault.OutOfMemory → lacks_of P.may_lack (value_at place self.now.functions) arguments.now ≡ true }
        ensures faults { IfErr result (λ f. (f ≡ fault.HostRefused) ⊎ (f ≡ fault.OutOfMemory)) }
    {
        match ask_at(&self.functions, place, arguments) {
            Ok(given) => Ok(given),
            Err(HostFault::Refused) => Err(Fault::HostRefused),
            Err(HostFault::OutOfMemory) => Err(Fault::OutOfMemory),
        }
    }
}

impl<P, T: TurnFn, W: Watcher> Desk<P, T, W> {
    /// Calls the turn function that a name is bound to, once, and keeps the call as an event with the next stamp.
    /// `HostRefused` where it refused, which is an event too. `OutOfMemory` where memory was refused before it was called or to
    /// itself, and then it was not called or has not acted; or where a text that it gave can have no further owner, and then
    /// the event is kept. No other function is touched.
    pub fn call(&mut self, name: &str, arguments: &[Value]) -> Result<Given, Fault>
        requires { (t : T) × (at name.now self.old.functions ≡ Some (bound.Turn t)) }
        ensures answer { (g : Answer) → result ≡ Ok g → Grew T.log (log_of W.state) self.old (event.Call name.now arguments.now (Some g) self.old.next ∷ []) self.new }
        ensures refused { result ≡ Err fault.HostRefused → Grew T.log (log_of W.state) self.old (event.Call name.now arguments.now None self.old.next ∷ []) self.new }
        ensures memory { result ≡ Err fault.OutOfMemory → (self.new ≡ self.old)
            ⊎ ((Grew T.log (log_of W.state) self.old [] self.new × (refusals_at T.refusals (at name.now self.new.functions) ≡ counted (refusals_at T.refusals (at name.now self.old.functions))))
            ⊎ ((g : Answer) × shares g × Grew T.log (log_of W.state) self.old (event.Call name.now arguments.now (Some g) self.old.next ∷ []) self.new)) }
        ensures faults { IfErr result (λ f. (f ≡ fault.HostRefused) ⊎ (f ≡ fault.OutOfMemory)) }
        ensures refusals { (refusals_at T.refusals (at name.now self.new.functions) ≡ refusals_at T.refusals (at name.now self.old.functions))
            ⊎ ((result ≡ Err fault.OutOfMemory) × (self.new.events ≡ self.old.events) × (refusals_at T.refusals (at name.now self.new.functions) ≡ counted (refusals_at T.refusals (at name.now self.old.functions)))) }
        ensures others { without name.now self.new.functions ≡ without name.now self.old.functions }
        ensures watchers { self.new.watchers ≡ self.old.watchers }
    {
        match self.find(name) {
            Some(found) => self.call_found(found.place, name, arguments),
            None => unreachable!(),
        }
    }

    /// The same of the function at a place, where `find` has found it.
    pub fn call_found(
        &mut self,
        place: usize,
        name: &str,
        arguments: &[Value],
    ) -> Result<Given, Fault>
        requires place { StandsAt name.now place self.old.functions }
        requires bound { (t : T) × (at name.now self.old.functions ≡ Some (bound.Turn t)) }
        ensures answer { (g : Answer) → result ≡ Ok g → Grew T.log (log_of W.state) self.old (event.Call name.now arguments.now (Some g) self.old.next ∷ []) self.new }
        ensures refused { result ≡ Err fault.HostRefused → Grew T.log (log_of W.state) self.old (event.Call name.now arguments.now None self.old.next ∷ []) self.new }
        ensures memory { result ≡ Err fault.OutOfMemory → (self.new ≡ self.old)
            ⊎ ((Grew T.log (log_of W.state) self.old [] self.new × (refusals_at T.refusals (at name.now self.new.functions) ≡ counted (refusals_at T.refusals (at name.now self.old.functions))))
            ⊎ ((g : Answer) × shares g × Grew T.log (log_of W.state) self.old (event.Call name.now arguments.now (Some g) self.old.next ∷ []) self.new)) }
        ensures faults { IfErr result (λ f. (f ≡ fault.HostRefused) ⊎ (f ≡ fault.OutOfMemory)) }
        ensures refusals { (refusals_at T.refusals (at name.now self.new.functions) ≡ refusals_at T.refusals (at name.now self.old.functions))
            ⊎ ((result ≡ Err fault.OutOfMemory) × (self.new.events ≡ self.old.events) × (refusals_at T.refusals (at name.now self.new.functions) ≡ counted (refusals_at T.refusals (at name.now self.old.functions)))) }
        ensures others { without name.now self.new.functions ≡ without name.now self.old.functions }
        ensures watchers { self.new.watchers ≡ self.old.watchers }
    {
        let noted = Text::from_str(self.alloc, name)?;
        let noted_arguments = copied_values(self.alloc, arguments)?;
        self.events.reserve(1)?;
        let stamp = self.next;
        match call_at(&mut self.functions, place, stamp, arguments) {
            Ok(given) => {
                let copy = given.clone_in(self.alloc);
                let event = Event::Call {
                    name: noted,
                    arguments: noted_arguments,
                    gave: Some(given),
                    stamp,
                };
                note(&mut self.events, &mut self.next, event);
                match copy {
                    Ok(copy) => return Ok(copy),
                    Err(_) => return Err(Fault::OutOfMemory),
                }
            }
            Err(HostFault::Refused) => {
                let event = Event::Call {
                    name: noted,
                    arguments: noted_arguments,
                    gave: None,
                    stamp,
                };
                note(&mut self.events, &mut self.next, event);
                return Err(Fault::HostRefused);
            }
            Err(HostFault::OutOfMemory) => return Err(Fault::OutOfMemory),
        }
    }
}

// The kind of a function.
fn kind_of<P, T>(function: &Bound<P, T>) -> FnKind
    ensures { result ≡ kind_of function.now }
{
    match function {
        Bound::Pure(_) => FnKind::Pure,
        Bound::Turn(_) => FnKind::Turn,
    }
}

impl<P, T, W> Desk<P, T, W> {
    /// Has a watcher told the new values of a global, and hands back who was told them before. The one error is a refused
    /// request for memory, which is made only where nobody was; it hands back the watcher, and nothing has changed.
    pub fn watch(&mut self, name: &str, watcher: W) -> Result<Option<W>, W>
        ensures old { IfOk result (λ old. old ≡ at name.now self.old.watchers) }
        ensures kept { OnOk result (self.new ≡ record self.old { watchers = put name.now watcher self.old.watchers }) }
        ensures back { IfErr result (λ w. w ≡ watcher) }
        ensures err { OnErr result (self.new ≡ self.old) }
        ensures memory { OnErr result (at name.now self.old.watchers ≡ None) }
    {
        keep(&mut self.watchers, self.alloc, name, watcher)
    }

    /// Takes the watcher of a global away and hands it back; none where nobody watches it. Takes no memory.
    pub fn unwatch(&mut self, name: &str) -> Option<W>
        ensures old { result ≡ at name.now self.old.watchers }
        ensures left { self.new ≡ record self.old { watchers = without name.now self.old.watchers } }
    {
        self.watchers.shift_remove(name)
    }

    /// Hands back all that was bound and all who watch, each by its name. Events that nobody has taken go.
    pub fn close(self) -> (IndexMap<String, Bound<P, T>>, IndexMap<String, W>)
        ensures functions { entries_as_rows string_bytes (λ b. b) result.0.entries ≡ self.functions }
        ensures watchers { entries_as_rows string_bytes (λ w. w) result.1.entries ≡ self.watchers }
    {
        let Desk {
            functions,
            watchers,
            events: _,
            next: _,
            alloc: _,
        } = self;
        (functions, watchers)
    }
}
