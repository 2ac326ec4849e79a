//! What watchers are to be told of globals (docs/HOST.md, "Telling").

ghost use Rattle.std.specs.Prelude.{◌≡◌, ◌≢◌, ◌++◌, ◌∷◌, [], IfOk, OnErr, OnOk, option_map};
ghost use Rattle.ink_host.specs.Desk.{watches};
ghost use Rattle.ink_model.specs.Host.Told.{is_other, told};

use ink_host::Desk;
use ink_model::{Change, Seq, Text, Value};
use ink_value::same_value;
use ink_vars::Globals;
use std::alloc::{AllocError, Global};

/// The watched globals that have another value than when the last running command began or the last global was set, whichever
/// came later, or were not there then, in order of declaration. The one error is a refused request for memory, which is made
/// only where there are such globals.
pub fn told_since<P, T, W>(
    alloc: Global,
    globals: &Globals,
    desk: &Desk<P, T, W>,
) -> Result<Seq<Change>, AllocError>
    ensures told { IfOk result (λ changes. changes ≡ told (watches desk.now.watchers) globals.now.start globals.now.rows) }
    ensures memory { OnErr result (told (watches desk.now.watchers) globals.now.start globals.now.rows ≢ []) }
{
    if !desk.has_watchers() {
        return Ok(Seq::new(alloc));
    }
    let indices = globals.changed(alloc, |name| desk.watches(name))?;
    let mut told = Vec::new(alloc);
    for index in &indices {
        if let Some((name, value)) = globals.pair(*index) {
            add_change(alloc, &mut told, name, value)?;
        }
    }
    Ok(Seq::from_vec(told))
}

/// The watched globals of the new ones that have another value than among the old ones, or are not there, in order of declaration.
/// The one error is a refused request for memory, which is made only where there are such globals.
pub fn told_between<P, T, W>(
    alloc: Global,
    old: &Globals,
    new: &Globals,
    desk: &Desk<P, T, W>,
) -> Result<Seq<Change>, AllocError>
    ensures told { IfOk result (λ changes. changes ≡ told (watches desk.now.watchers) old.now.rows new.now.rows) }
    ensures memory { OnErr result (told (watches desk.now.watchers) old.now.rows new.now.rows ≢ []) }
{
    let mut told = Vec::new(alloc);
    for index in 0..new.len() {
        if let Some((name, value)) = new.pair(index) {
            if desk.watches(name) && is_other(old.get(name), value) {
                add_change(alloc, &mut told, name, value)?;
            }
        }
    }
    Ok(Seq::from_vec(told))
}

/// A global with this value, if it is watched and has another one, or is not there. The one error is a refused request for memory,
/// which is made only where it is.
#[inline(always)]
pub fn told_one<P, T, W>(
    alloc: Global,
    globals: &Globals,
    name: &str,
    value: &Value,
    desk: &Desk<P, T, W>,
) -> Result<Seq<Change>, AllocError>
    ensures told { IfOk result (λ changes. changes ≡ told (watches desk.now.watchers) globals.now.rows ((name.now, value.now) ∷ [])) }
    ensures memory { OnErr result (told (watches desk.now.watchers) globals.now.rows ((name.now, value.now) ∷ []) ≢ []) }
{
    let mut told = Vec::new(alloc);
    if desk.watches(name) && is_other(globals.get(name), value) {
        add_change(alloc, &mut told, name, value)?;
    }
    Ok(Seq::from_vec(told))
}

/// Whether there was no value, or another one.
#[inline(always)]
fn is_other(was: Option<&Value>, value: &Value) -> bool
    ensures { result ≡ is_other (option_map (λ v. v.now) was.entry) value.now }
{
    match was {
        Some(was) => !same_value(was, value),
        None => true,
    }
}

/// Adds a change, with copies of name and value. The one error is a refused request for memory.
fn add_change(
    alloc: Global,
    told: &mut Vec<Change>,
    name: &str,
    value: &Value,
) -> Result<(), AllocError>
    ensures { OnOk result (told.new.items ≡ told.old.items ++ record { name = name.now; value = value.now } ∷ []) }
{
    told.push(Change {
        name: Text::from_str(alloc, name)?,
        value: value.clone_in(alloc)?,
    })?;
    Ok(())
}
