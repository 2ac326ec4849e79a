//! Variables that are read, assigned and declared.

ghost use Rattle.std.specs.Prelude.{◌≡◌, ◌≤◌, ◌⊎◌, pos, true, is_some, option_map, None, Ok, Some, IfOk, if◌then◌else◌};
ghost use Rattle.ink_model.specs.Variables.Rows.{name_order, row};
ghost use Rattle.ink_model.specs.Variables.Store.{Values};
ghost use Rattle.ink_model.specs.Flow.Threads.{frame_count};
ghost use Rattle.ink_model.specs.Memory.Variables.{is_pointer};
ghost use Rattle.ink_model.specs.Variables.Access as rules;
ghost use Rattle.ink_model.specs.declared.value.Value.{Value as Data};
ghost use Rattle.ink_vars.specs.Outcomes.{Copies, Declares, HandsOut, LeadsInto, LeadsTo, found, found_at, looked, number_of_name};

use crate::globals::Globals;
use crate::places::{Name, Variable};
use crate::pointers::{chain_end, held, named, stands};
use ink_model::{Fault, Scope, Shared, Text, Value};
use ink_stack::Threads;
use std::alloc::Global;

/// Reads a variable: the global of that name, else the current frame's temporary, or what the pointer leads to that it
/// holds. What nothing has, in a frame that is there, reads 0. `BadPointer` where the pointer leads to a global or a frame
/// that is not there, or the chain of pointers is too long; `OutOfMemory` where the copy shares something and its count of
/// owners is full (docs/VARIABLES.md, "Pointers").
pub fn read<P: Copy>(
    alloc: Global,
    globals: &Globals,
    threads: &Threads<P>,
    name: &str,
) -> Result<Value, Fault>
    ensures { Copies (rules.read globals.now.rows threads.now.threads.thread name.now) result }
{
    match look(globals, threads, name, None)? {
        Some(value) => Ok(value.clone_in(alloc)?),
        None => Ok(Value::Int(0)),
    }
}

/// What a variable is read as, by a name that may have a number, without a copy; none where nothing has it, or the frame that its
/// pointer leads to lacks it, which reads 0. The one error is `BadPointer`, as of `read`. Takes no memory.
#[inline(always)]
pub fn look<'a, P: Copy>(
    globals: &'a Globals,
    threads: &'a Threads<P>,
    name: &str,
    number: Option<usize>,
) -> Result<Option<&'a Value>, Fault>
    ensures read { looked result ≡ rules.read globals.now.rows threads.now.threads.thread name.now }
    ensures found { IfOk result (λ value. option_map (λ v. v.now) value ≡ found globals.now.rows threads.now.threads.thread name.now) }
{
    match named(globals, threads, name, number) {
        None => Ok(None),
        Some(Value::Pointer(frame, to)) => look_at(globals, threads, *frame, to),
        Some(value) => Ok(Some(value)),
    }
}

// What a pointer leads to.
#[inline(never)]
fn look_at<'a, P: Copy>(
    globals: &'a Globals,
    threads: &'a Threads<P>,
    frame: i32,
    name: &'a Shared<Text>,
) -> Result<Option<&'a Value>, Fault>
    ensures read { let end = rules.chain_end globals.now.rows threads.now.threads.thread frame name.now in
        looked result ≡ rules.value_at globals.now.rows threads.now.threads.thread end }
    ensures found { let end = rules.chain_end globals.now.rows threads.now.threads.thread frame name.now in
        IfOk result (λ value. option_map (λ v. v.now) value ≡ found_at globals.now.rows threads.now.threads.thread end) }
{
    let Some(end) = chain_end(globals, threads, frame, name) else {
        return Err(Fault::BadPointer);
    };
    match end.found.value {
        Some(value) => Ok(Some(value)),
        None => {
            if stands(globals, threads, end.frame, end.name.as_str()) {
                Ok(None)
            } else {
                Err(Fault::BadPointer)
            }
        }
    }
}

/// The variable that is written where something is assigned to a name, which may have a number: the global of that name, else the
/// current frame's temporary, or what the pointer leads to that it holds. `NoTemp` where nothing has that name, or the frame that
/// the pointer leads to lacks it; `BadPointer` where the pointer leads to a global or a frame that is not there, or the chain of
/// pointers is too long; `OutOfMemory` where a pointer is followed and its name has as many owners as can be (docs/VARIABLES.md,
/// "Pointers"). The variable has the number that was given, or none.
pub fn assigned<'a, P: Copy>(
    globals: &Globals,
    threads: &Threads<P>,
    name: &'a Shared<Text>,
    number: Option<usize>,
) -> Result<Variable<'a>, Fault>
    ensures leads { LeadsTo globals.now.rows threads.now.threads.thread name.now result }
    ensures number { IfOk result (λ x. (number_of_name x.name ≡ number) ⊎ (number_of_name x.name ≡ None)) }
{
    if let Some(value) = globals.get_at(name.as_str(), number) {
        return assigned_in(globals, threads, 0, name, number, value);
    }
    let frame = threads.top().frames();
    match threads.temp(frame, name.as_str()) {
        Some(value) => assigned_in(globals, threads, frame, name, None, value),
        None => Err(Fault::NoTemp),
    }
}

// The same of a name that has a value in the frame of a number.
fn assigned_in<'a, P: Copy>(
    globals: &Globals,
    threads: &Threads<P>,
    frame: usize,
    name: &'a Shared<Text>,
    number: Option<usize>,
    value: &Value,
) -> Result<Variable<'a>, Fault>
    requires named { rules.named globals.now.rows threads.now.threads.thread name.now ≡ Some value.now }
    requires there { is_some (rules.held globals.now.rows threads.now.threads.thread (pos frame) name.now) ≡ true }
    requires within { frame ≤ frame_count threads.now.threads.thread }
    requires same { (v : Data) → rules.with_named globals.now.rows threads.now.threads.thread name.now v ≡ rules.with_held globals.now.rows threads.now.threads.thread (pos frame) name.now v }
    ensures leads { LeadsTo globals.now.rows threads.now.threads.thread name.now result }
    ensures number { IfOk result (λ x. (number_of_name x.name ≡ number) ⊎ (number_of_name x.name ≡ None)) }
{
    match value {
        Value::Pointer(frame, to) => pointed(globals, threads, *frame, to),
        _ => Ok(Variable {
            frame,
            name: Name::Given(name, number),
        }),
    }
}

// The variable that is written where something is assigned to what a pointer leads to.
fn pointed<'a, P: Copy>(
    globals: &Globals,
    threads: &Threads<P>,
    frame: i32,
    name: &Shared<Text>,
) -> Result<Variable<'a>, Fault>
    ensures leads { let end = rules.chain_end globals.now.rows threads.now.threads.thread frame name.now in
        LeadsInto globals.now.rows threads.now.threads.thread end result }
    ensures number { IfOk result (λ x. number_of_name x.name ≡ None) }
{
    let Some(end) = chain_end(globals, threads, frame, name) else {
        return Err(Fault::BadPointer);
    };
    let Some(_) = end.found.value else {
        return Err(lacking(globals, threads, end.frame, end.name.as_str()));
    };
    let Ok(frame) = usize::try_from(end.frame) else {
        return Err(Fault::BadPointer);
    };
    let name = end.name.share()?;
    Ok(Variable {
        frame,
        name: Name::Pointed(name, end.found.index),
    })
}

// The fault of an assignment to what a pointer leads to, where that has no value: the frame lacks it, or there is no such global or
// frame.
#[cold]
#[inline(never)]
fn lacking<P: Copy>(globals: &Globals, threads: &Threads<P>, frame: i32, name: &str) -> Fault
    ensures { result ≡ (if rules.stands globals.now.rows threads.now.threads.thread frame name.now then Fault.NoTemp else Fault.BadPointer) }
{
    if stands(globals, threads, frame, name) {
        Fault::NoTemp
    } else {
        Fault::BadPointer
    }
}

/// The variable that is written where a name, which may have a number, is declared in a scope, whether it is there or not: a
/// global, or a temporary of the current frame. It has the number that was given. Takes no memory.
pub fn declared<'a, P: Copy>(
    threads: &Threads<P>,
    scope: Scope,
    name: &'a Shared<Text>,
    number: Option<usize>,
) -> Variable<'a>
    ensures within { result.frame ≤ frame_count threads.now.threads.thread }
    ensures number { number_of_name result.name ≡ number }
    ensures variable { (globals : Values) → Declares globals threads.now.threads.thread scope name.now result }
{
    let frame = match scope {
        Scope::Global => 0,
        Scope::Temporary => threads.top().frames(),
    };
    Variable {
        frame,
        name: Name::Given(name, number),
    }
}

/// What a variable keeps of a value: of a pointer the last of its chain. `BadPointer` where that chain is too long;
/// `OutOfMemory` where the name of what the pointer leads to has as many owners as can be.
pub fn kept<P: Copy>(globals: &Globals, threads: &Threads<P>, value: Value) -> Result<Value, Fault>
    ensures { HandsOut (is_pointer (Some value)) (rules.kept globals.now.rows threads.now.threads.thread value) result }
{
    match &value {
        Value::Pointer(frame, name) => {
            if leads_on(globals, threads, *frame, name.as_str()) {
                kept_pointer(globals, threads, *frame, name)
            } else {
                Ok(value)
            }
        }
        _ => Ok(value),
    }
}

// Whether what a pointer leads to is a pointer, too. Most lead to what is none, and are kept as they are.
#[inline(always)]
fn leads_on<P: Copy>(globals: &Globals, threads: &Threads<P>, frame: i32, name: &str) -> bool
    ensures { result ≡ is_pointer (rules.held globals.now.rows threads.now.threads.thread frame name.now) }
{
    match held(globals, threads, frame, name).value {
        Some(Value::Pointer(..)) => true,
        _ => false,
    }
}

// What is kept of a pointer, by its chain.
#[inline(never)]
fn kept_pointer<P: Copy>(
    globals: &Globals,
    threads: &Threads<P>,
    frame: i32,
    name: &Shared<Text>,
) -> Result<Value, Fault>
    ensures { let end = rules.chain_end globals.now.rows threads.now.threads.thread frame name.now in
        HandsOut true (rules.kept_pointer end) result }
{
    let Some(end) = chain_end(globals, threads, frame, name) else {
        return Err(Fault::BadPointer);
    };
    let name = end.name.share()?;
    Ok(Value::Pointer(end.frame, name))
}

/// The pointer that is pushed for one of the story: where its frame is not known (a number below 0), it leads to the current
/// frame where that has the name, and else to the globals. `OutOfMemory` where the name has as many owners as can be
/// (docs/VARIABLES.md, "Pointers").
pub fn point<P: Copy>(threads: &Threads<P>, frame: i32, name: &Shared<Text>) -> Result<Value, Fault>
    ensures { HandsOut true (Ok (rules.point threads.now.threads.thread frame name.now)) result }
{
    let frame = if frame < 0 {
        frame_of(threads, name.get().as_str())
    } else {
        frame
    };
    let name = name.share()?;
    Ok(Value::Pointer(frame, name))
}

// The number of the current frame where that has the name, else 0.
fn frame_of<P: Copy>(threads: &Threads<P>, name: &str) -> i32
    ensures { let own = is_some (row name_order name.now threads.now.threads.thread.frame.temps) in
        result ≡ (if own then pos (frame_count threads.now.threads.thread) else pos 0) }
{
    let frame = threads.top().frames();
    if threads.temp(frame, name).is_some() {
        frame as i32
    } else {
        0
    }
}
