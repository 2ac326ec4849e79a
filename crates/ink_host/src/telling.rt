//! Telling the watchers what has changed.

ghost use Rattle.std.specs.Prelude.{◌≡◌, ◌≢◌, ◌+◌, ◌≤◌, [], ◌∷◌, ◌++◌, List, Bool, false, bytes_eq, filter, is_ok, string_bytes, vec_capacity, vec_len, IfOk, OnErr, OnOk, Err};
ghost use Rattle.ink_model.specs.Host.Events.{later};
ghost use Rattle.ink_model.specs.declared.host.Event.{Event as Happening};
ghost use Rattle.ink_host.specs.Desk.{Grew, Resting, entries_as_rows, watches};
ghost use Rattle.ink_host.specs.Telling.{IsRound, Stand, begun, change, round_ended, heard, in_turn, log_of, named, refused, rests, standing, change_taken};
ghost use Rattle.ink_host.specs.declared.telling.TellFault.TheVariants.{NoRoom};
ghost use Rattle.ink_model.specs.Host.Told.{ToldAs};

use crate::desk::Desk;
use crate::objects::{TurnFn, Watcher};
use crate::rows::note;
use indexmap::IndexMap;
use ink_model::{Change, Event, Text, Value};
use std::alloc::{AllocError, Global};

/// Why not all changes were told: there was no room for them, and nobody was told anything, or a watcher was refused memory.
#[derive(Clone, Copy, Debug, PartialEq, Eq)]
pub enum TellFault {
    NoRoom,
    Watcher,
}

impl<P, T: TurnFn, W: Watcher> Desk<P, T, W> {
    /// Tells the watchers of these globals their new values, each as one event; a change of a global that nobody watches is
    /// passed over. Each watcher concerned is begun, then each told, then each ended, in the order of the changes and once for
    /// each of them, whatever comes of it (docs/HOST.md). Which of two watchers is begun, told or ended before the other is as
    /// this code has it, and in no clause: a watcher shows what was done to it, and not when. Only the stamps of the events are
    /// in the order of the changes by a clause. `NoRoom` where memory for the events was refused, or a value can have no further
    /// owner, which both come only where somebody watches, and then nothing was done; `Watcher` where a watcher was refused
    /// memory, and then there is no event of its change, and the others were told.
    pub fn tell(&mut self, changes: &[Change]) -> Result<(), TellFault>
        ensures functions { self.new.functions ≡ self.old.functions }
        ensures no_room { result ≡ Err NoRoom → self.new ≡ self.old }
        ensures memory { result ≡ Err NoRoom → filter (λ c. watches self.old.watchers c.name) changes.now ≢ [] }
        ensures told { result ≢ Err NoRoom → (es : List Happening) × (t : ToldAs self.old.next (filter (λ c. watches self.old.watchers c.name) changes.now) (is_ok result) es)
            × IsRound W.state self.old.next changes.now (filter (λ c. watches self.old.watchers c.name) changes.now) t.answers self.old.watchers self.new.watchers
            × Grew T.log (log_of W.state) self.old es self.new }
        ensures rest { Resting (rests W.state) self.old.watchers → Resting (rests W.state) self.new.watchers }
    {
        let Ok(told) = watched_among(&self.watchers, self.alloc, changes) else {
            return Err(TellFault::NoRoom);
        };
        if self.events.reserve(told.len()).is_err() {
            return Err(TellFault::NoRoom);
        }
        begin_all(&mut self.watchers, changes);
        let outcome = change_all(&mut self.watchers, &mut self.events, &mut self.next, told);
        end_all(&mut self.watchers, changes);
        outcome
    }
}

// Copies of the changes whose names have watchers, in order. Only they need memory.
fn watched_among<W>(
    watchers: &IndexMap<String, W>,
    alloc: Global,
    changes: &[Change],
) -> Result<Vec<Change>, AllocError>
    ensures ok { IfOk result (λ told. told.items ≡ filter (λ c. watches (entries_as_rows string_bytes (λ w. w) watchers.now.entries) c.name) changes.now) }
    ensures err { OnErr result (filter (λ c. watches (entries_as_rows string_bytes (λ w. w) watchers.now.entries) c.name) changes.now ≢ []) }
{
    let mut told = Vec::new(alloc);
    for change in changes {
        if watchers.contains_key(change.name.as_str()) {
            told.push(copied(alloc, change)?)?;
        }
    }
    Ok(told)
}

// A copy.
fn copied(alloc: Global, change: &Change) -> Result<Change, AllocError>
    ensures { IfOk result (λ copy. copy ≡ change.now) }
{
    let name = change.name.clone_in(alloc)?;
    let value = change.value.clone_in(alloc)?;
    Ok(Change { name, value })
}

// Begins the watcher of each name, in order.
fn begin_all<W: Watcher>(watchers: &mut IndexMap<String, W>, changes: &[Change])
    ensures { standing string_bytes W.state watchers.new.entries ≡ in_turn begun changes.now (standing string_bytes W.state watchers.old.entries) }
{
    for change in changes {
        begin_at(watchers, change.name.as_str());
    }
}

// Ends the watcher of each name, in order.
fn end_all<W: Watcher>(watchers: &mut IndexMap<String, W>, changes: &[Change])
    ensures { standing string_bytes W.state watchers.new.entries ≡ in_turn round_ended changes.now (standing string_bytes W.state watchers.old.entries) }
{
    for change in changes {
        end_at(watchers, change.name.as_str());
    }
}

// Tells each change in turn and notes an event of each that was taken, in room that is there. `Watcher` where one was not.
fn change_all<W: Watcher>(
    watchers: &mut IndexMap<String, W>,
    events: &mut Vec<Event>,
    next: &mut u64,
    changes: Vec<Change>,
) -> Result<(), TellFault>
    requires room { vec_len events.old + vec_len changes ≤ vec_capacity events.old }
    requires begun { Stand (λ n. named n changes.items) false (standing string_bytes W.state watchers.old.entries) }
    ensures fault { result ≢ Err NoRoom }
    ensures told { (es : List Happening) × (t : ToldAs next.old changes.items (is_ok result) es)
        × (events.new.items ≡ events.old.items ++ es)
        × (next.new ≡ later next.old es)
        × (standing string_bytes W.state watchers.new.entries ≡ heard next.old changes.items t.answers (standing string_bytes W.state watchers.old.entries)) }
{
    let mut outcome = Ok(());
    for change in changes {
        match changed_at(watchers, *next, change.name.as_str(), &change.value) {
            Ok(()) => {
                let stamp = *next;
                let Change { name, value } = change;
                note(events, next, Event::Saw { name, stamp, value });
            }
            Err(_) => {
                drop(change);
                outcome = Err(TellFault::Watcher);
            }
        }
    }
    outcome
}

// Begins the watcher of a name, if there is one.
fn begin_at<W: Watcher>(watchers: &mut IndexMap<String, W>, name: &str)
    ensures { standing string_bytes W.state watchers.new.entries ≡ change name.now begun (standing string_bytes W.state watchers.old.entries) }
{
    let Some(watcher) = watchers.get_mut(name) else {
        return;
    };
    watcher.begin();
}

// Ends the watcher of a name, if there is one.
fn end_at<W: Watcher>(watchers: &mut IndexMap<String, W>, name: &str)
    ensures { standing string_bytes W.state watchers.new.entries ≡ change name.now round_ended (standing string_bytes W.state watchers.old.entries) }
{
    let Some(watcher) = watchers.get_mut(name) else {
        return;
    };
    watcher.end();
}

// Tells the watcher of a name, if there is one.
fn changed_at<W: Watcher>(
    watchers: &mut IndexMap<String, W>,
    stamp: u64,
    name: &str,
    value: &Value,
) -> Result<(), AllocError>
    requires begun { Stand (bytes_eq name.now) false (standing string_bytes W.state watchers.old.entries) }
    ensures told { OnOk result (standing string_bytes W.state watchers.new.entries ≡ change name.now (change_taken (record { stamp = stamp; name = name.now; value = value.now })) (standing string_bytes W.state watchers.old.entries)) }
    ensures untold { OnErr result (standing string_bytes W.state watchers.new.entries ≡ change name.now refused (standing string_bytes W.state watchers.old.entries)) }
{
    let Some(watcher) = watchers.get_mut(name) else {
        return Ok(());
    };
    watcher.changed(stamp, name, value)
}
