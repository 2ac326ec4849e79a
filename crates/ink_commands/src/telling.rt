//! Telling the watchers what a command changes (docs/HOST.md, "Telling").

ghost use Rattle.std.specs.Prelude.{◌≡◌, [], ◌∷◌, filter};
ghost use Rattle.ink_host.specs.Desk.{Resting, watches};
ghost use Rattle.ink_host.specs.Telling.{rests};
ghost use Rattle.ink_model.specs.Host.Told.{told};
ghost use Rattle.ink_commands.specs.Telling.{TellsWatchers};
ghost use Rattle.ink_step.specs.Standing.{globals_of, start_of};

use ink_host::{Desk, TellFault, TurnFn, Watcher};
use ink_model::{Change, Value};
use ink_step::Machine;
use ink_told::{told_between, told_one};
use std::alloc::{AllocError, Global};

// Tells these changes; whether all watchers found memory. The one error is a refused request for memory, which is made only where
// somebody watches, and nothing has changed then.
fn tell<P, F: TurnFn, O: Watcher>(
    desk: &mut Desk<P, F, O>,
    changes: &[Change],
) -> Result<bool, AllocError>
    ensures tells { TellsWatchers F.log O.state desk.old changes.now (filter (λ c. watches desk.old.watchers c.name) changes.now) result desk.new }
    ensures functions { desk.new.functions ≡ desk.old.functions }
    ensures rest { Resting (rests O.state) desk.old.watchers → Resting (rests O.state) desk.new.watchers }
{
    match desk.tell(changes) {
        Ok(()) => Ok(true),
        Err(TellFault::Watcher) => Ok(false),
        Err(TellFault::NoRoom) => Err(AllocError),
    }
}

/// Tells the watcher of a global that this is its value now, where that is another one; whether it found memory. The one error is a
/// refused request for memory, which is made only where there is something to tell, and nothing has changed then.
pub fn tell_one<P, F: TurnFn, O: Watcher>(
    alloc: Global,
    desk: &mut Desk<P, F, O>,
    machine: &Machine,
    name: &str,
    value: &Value,
) -> Result<bool, AllocError>
    ensures tells { let cs = told (watches desk.old.watchers) (globals_of machine.now) ((name.now, value.now) ∷ []) in TellsWatchers F.log O.state desk.old cs cs result desk.new }
    ensures functions { desk.new.functions ≡ desk.old.functions }
    ensures rest { Resting (rests O.state) desk.old.watchers → Resting (rests O.state) desk.new.watchers }
{
    if !desk.has_watchers() {
        return Ok(true);
    }
    let changes = told_one(alloc, machine.globals(), name, value, desk)?;
    tell(desk, changes.as_slice())
}

/// Tells the watchers of the globals that have another value in the new machine than in the old one, or were not there; whether all
/// of them found memory. The one error is that of `tell_one`.
pub fn tell_between<P, F: TurnFn, O: Watcher>(
    alloc: Global,
    desk: &mut Desk<P, F, O>,
    old: &Machine,
    new: &Machine,
) -> Result<bool, AllocError>
    ensures tells { let cs = told (watches desk.old.watchers) (globals_of old.now) (globals_of new.now) in TellsWatchers F.log O.state desk.old cs cs result desk.new }
    ensures functions { desk.new.functions ≡ desk.old.functions }
    ensures rest { Resting (rests O.state) desk.old.watchers → Resting (rests O.state) desk.new.watchers }
{
    let changes = told_between(alloc, old.globals(), new.globals(), desk)?;
    tell(desk, changes.as_slice())
}

/// Tells the watchers of the globals that have another value than when the last running command began or the last global was set,
/// whichever came later, or were not there then; whether all of them found memory. The one error is that of `tell_one`.
pub fn tell_changed<P, F: TurnFn, O: Watcher>(
    desk: &mut Desk<P, F, O>,
    machine: &Machine,
) -> Result<bool, AllocError>
    ensures tells { let cs = told (watches desk.old.watchers) (start_of machine.now) (globals_of machine.now) in TellsWatchers F.log O.state desk.old cs cs result desk.new }
    ensures functions { desk.new.functions ≡ desk.old.functions }
    ensures rest { Resting (rests O.state) desk.old.watchers → Resting (rests O.state) desk.new.watchers }
{
    if desk.has_watchers() {
        return tell_watchers(desk, machine);
    }
    Ok(true)
}

// The same where somebody may watch. Out of the way of a player that nobody watches.
#[inline(never)]
fn tell_watchers<P, F: TurnFn, O: Watcher>(
    desk: &mut Desk<P, F, O>,
    machine: &Machine,
) -> Result<bool, AllocError>
    ensures tells { let cs = told (watches desk.old.watchers) (start_of machine.now) (globals_of machine.now) in TellsWatchers F.log O.state desk.old cs cs result desk.new }
    ensures functions { desk.new.functions ≡ desk.old.functions }
    ensures rest { Resting (rests O.state) desk.old.watchers → Resting (rests O.state) desk.new.watchers }
{
    let changes = machine.told(desk)?;
    tell(desk, changes.as_slice())
}
