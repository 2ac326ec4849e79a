//! What the desk does to its parts: maps by name, and the events.

ghost use Rattle.std.specs.Prelude.{◌≡◌, ℕ, ◌+◌, ◌≤◌, List, ◌++◌, [], ◌∷◌, None, Some, Ok, Err, string_bytes, vec_capacity, vec_len, IfOk, IfErr, OnOk, OnErr, is_some, true};
ghost use Rattle.ink_model.specs.Host.Events.{after};
ghost use Rattle.ink_model.specs.declared.host.Event.TheVariants as event;
ghost use Rattle.ink_model.specs.declared.host.Given.{Given as Answer};
ghost use Rattle.ink_model.specs.declared.host.HostFault.TheVariants as fault;
ghost use Rattle.ink_host.specs.Desk.{StandsAt, answer_of, at, by_log, called, each, lacks_of, logs, noting, put, refusals_after, refusals_at, refusals_of, entries_as_rows, value_at, without};
ghost use Rattle.ink_host.specs.declared.objects.Bound.TheVariants as bound;

use crate::objects::{Bound, PureFn, TurnFn};
use indexmap::IndexMap;
use ink_model::{Event, Given, HostFault, Value};
use std::alloc::Global;
use std::mem;

/// Puts an object at a name, and hands back what was there. The one error is a refused request for memory, which is made only
/// for a name that is new, and hands back the object.
pub(crate) fn keep<X>(
    rows: &mut IndexMap<String, X>,
    alloc: Global,
    name: &str,
    object: X,
) -> Result<Option<X>, X>
    ensures old { IfOk result (λ old. old ≡ at name.now (entries_as_rows string_bytes (λ x. x) rows.old.entries)) }
    ensures kept { OnOk result (entries_as_rows string_bytes (λ x. x) rows.new.entries ≡ put name.now object (entries_as_rows string_bytes (λ x. x) rows.old.entries)) }
    ensures back { IfErr result (λ x. x ≡ object) }
    ensures err { OnErr result (rows.new.entries ≡ rows.old.entries) }
    ensures memory { OnErr result (at name.now (entries_as_rows string_bytes (λ x. x) rows.old.entries) ≡ None) }
{
    if rows.contains_key(name) {
        return Ok(Some(keep_over(rows, name, object)));
    }
    let Ok(key) = String::from_str(alloc, name) else {
        return Err(object);
    };
    match rows.insert(key, object) {
        Ok(old) => Ok(old),
        Err(refused) => {
            let (_, object) = refused.value;
            Err(object)
        }
    }
}

// Puts an object in the place of the one at a name, and hands that one back.
fn keep_over<X>(rows: &mut IndexMap<String, X>, name: &str, object: X) -> X
    requires { is_some (at name.now (entries_as_rows string_bytes (λ x. x) rows.old.entries)) ≡ true }
    ensures old { Some result ≡ at name.now (entries_as_rows string_bytes (λ x. x) rows.old.entries) }
    ensures kept { entries_as_rows string_bytes (λ x. x) rows.new.entries ≡ put name.now object (entries_as_rows string_bytes (λ x. x) rows.old.entries) }
{
    match rows.get_mut(name) {
        Some(there) => mem::replace(there, object),
        None => unreachable!(),
    }
}

/// Asks the pure function at a place.
pub(crate) fn ask_at<P: PureFn, T>(
    functions: &IndexMap<String, Bound<P, T>>,
    place: usize,
    arguments: &[Value],
) -> Result<Given, HostFault>
    requires { (p : P) × (value_at place (entries_as_rows string_bytes (λ b. b) functions.now.entries) ≡ Some (bound.Pure p)) }
    ensures answer { (g : Answer) → result ≡ Ok g → answer_of P.meaning (value_at place (entries_as_rows string_bytes (λ b. b) functions.now.entries)) arguments.now ≡ Some g }
    ensures refused { result ≡ Err fault.Refused → answer_of P.meaning (value_at place (entries_as_rows string_bytes (λ b. b) functions.now.entries)) arguments.now ≡ None }
    ensures memory { result ≡ Err fault.OutOfMemory → lacks_of P.may_lack (value_at place (entries_as_rows string_bytes (λ b. b) functions.now.entries)) arguments.now ≡ true }
{
    match functions.get_index(place) {
        Some((_, object)) => ask_bound(object, arguments),
        None => unreachable!(),
    }
}

// Asks a pure function.
fn ask_bound<P: PureFn, T>(object: &Bound<P, T>, arguments: &[Value]) -> Result<Given, HostFault>
    requires { (p : P) × (object.now ≡ bound.Pure p) }
    ensures answer { (g : Answer) → result ≡ Ok g → answer_of P.meaning (Some object.now) arguments.now ≡ Some g }
    ensures refused { result ≡ Err fault.Refused → answer_of P.meaning (Some object.now) arguments.now ≡ None }
    ensures memory { result ≡ Err fault.OutOfMemory → lacks_of P.may_lack (Some object.now) arguments.now ≡ true }
{
    match object {
        Bound::Pure(function) => function.ask(arguments),
        Bound::Turn(_) => unreachable!(),
    }
}

/// Calls the turn function at a place.
pub(crate) fn call_at<P, T: TurnFn>(
    functions: &mut IndexMap<String, Bound<P, T>>,
    place: usize,
    stamp: u64,
    arguments: &[Value],
) -> Result<Given, HostFault>
    requires { (t : T) × (value_at place (entries_as_rows string_bytes (λ b. b) functions.old.entries) ≡ Some (bound.Turn t)) }
    ensures answer { (name : List ℕ) → StandsAt name place (entries_as_rows string_bytes (λ b. b) functions.old.entries) → (g : Answer) → result ≡ Ok g → logs T.log (entries_as_rows string_bytes (λ b. b) functions.new.entries) ≡ each (called (event.Call name arguments.now (Some g) stamp ∷ [])) (logs T.log (entries_as_rows string_bytes (λ b. b) functions.old.entries)) }
    ensures refused { (name : List ℕ) → StandsAt name place (entries_as_rows string_bytes (λ b. b) functions.old.entries) → result ≡ Err fault.Refused → logs T.log (entries_as_rows string_bytes (λ b. b) functions.new.entries) ≡ each (called (event.Call name arguments.now None stamp ∷ [])) (logs T.log (entries_as_rows string_bytes (λ b. b) functions.old.entries)) }
    ensures memory { (name : List ℕ) → StandsAt name place (entries_as_rows string_bytes (λ b. b) functions.old.entries) → result ≡ Err fault.OutOfMemory → logs T.log (entries_as_rows string_bytes (λ b. b) functions.new.entries) ≡ logs T.log (entries_as_rows string_bytes (λ b. b) functions.old.entries) }
    ensures refusals { (name : List ℕ) → StandsAt name place (entries_as_rows string_bytes (λ b. b) functions.old.entries) → refusals_at T.refusals (at name (entries_as_rows string_bytes (λ b. b) functions.new.entries)) ≡ refusals_after result (refusals_at T.refusals (at name (entries_as_rows string_bytes (λ b. b) functions.old.entries))) }
    ensures others { (name : List ℕ) → StandsAt name place (entries_as_rows string_bytes (λ b. b) functions.old.entries) → without name (entries_as_rows string_bytes (λ b. b) functions.new.entries) ≡ without name (entries_as_rows string_bytes (λ b. b) functions.old.entries) }
{
    match functions.get_index_mut(place) {
        Some(object) => call_bound(object, stamp, arguments),
        None => unreachable!(),
    }
}

// Calls a turn function.
fn call_bound<P, T: TurnFn>(
    object: &mut Bound<P, T>,
    stamp: u64,
    arguments: &[Value],
) -> Result<Given, HostFault>
    requires { (t : T) × (object.old ≡ bound.Turn t) }
    ensures answer { (g : Answer) → result ≡ Ok g → by_log T.log object.new ≡ noting (record { stamp = stamp; arguments = arguments.now; gave = Some g }) (by_log T.log object.old) }
    ensures refused { result ≡ Err fault.Refused → by_log T.log object.new ≡ noting (record { stamp = stamp; arguments = arguments.now; gave = None }) (by_log T.log object.old) }
    ensures memory { result ≡ Err fault.OutOfMemory → by_log T.log object.new ≡ by_log T.log object.old }
    ensures refusals { refusals_of T.refusals object.new ≡ refusals_after result (refusals_of T.refusals object.old) }
{
    match object {
        Bound::Turn(function) => function.call(stamp, arguments),
        Bound::Pure(_) => unreachable!(),
    }
}

/// Notes an event, in room that is there, and counts on.
pub(crate) fn note(events: &mut Vec<Event>, next: &mut u64, event: Event)
    requires room { vec_len events.old + 1 ≤ vec_capacity events.old }
    ensures items { events.new.items ≡ events.old.items ++ event ∷ [] }
    ensures next { next.new ≡ after next.old }
    ensures len { vec_len events.new ≡ vec_len events.old + 1 }
    ensures room { vec_capacity events.old ≤ vec_capacity events.new }
{
    events.push_reserved(event);
    *next = stamp_after(*next);
}

// The stamp after one; the last stays.
fn stamp_after(stamp: u64) -> u64
    ensures { result ≡ after stamp }
{
    if stamp < u64::MAX { stamp + 1 } else { stamp }
}
