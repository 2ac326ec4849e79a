//! Tables of calls of a player. `= STORY` stands above the calls, each of which is a case: a call, ` => ` and what it has to
//! say. All but the first are of one player.
//!
//! - `opened`: `Player::open`, which hands back a story whose declarations fault
//! - `continue`, `through`: the passage's text, ` #TAG` for each tag, ` more` and ` loose`
//! - `choices`: each text and its tags as a passage has them, apart by ` | `; `none` where there is none
//! - `restart`, `can_continue`, `get NAME`, `set NAME VALUE`, `visits PATH`, `choose N`, `jump PATH`
//! - `save`: the text of the save; `load JSON`; `load_text TEXT`, where TEXT is what stands behind the word as it is
//! - `fault`: the one by which the player is broken, or `none`
//! - `flow NAME`, `drop NAME`, where NAME is what stands behind the word as it is; `flow_name`, and `flows`, apart by spaces
//! - `turn NAME DEED..`, `pure NAME DEED`, `watch NAME`, `unbind NAME`, `unwatch NAME`: what is handed back, or `nothing`. A deed
//!   is a value, `refuses` or `short`, which finds no memory; a watcher does not with `watch NAME short`
//! - `kind NAME`: `pure`, `turn` or `nothing`; `has_watchers`; `path NAME`, the text of a target that a global has; `same NAME NAME`
//! - `debug player`, `debug desk`, `debug called NAME`, `debug seen NAME`: what `{:?}` makes of them, of each that was noted
//! - `short CALL`: `continue`, `through`, `restart`, `set`, `load` or `load_text`, of which want of memory is an answer, with the
//!   events until then
//!
//! A fault or a refusal is told by its name. Events stand behind an answer: `roll(6)=4@0` is a call and what it gave, `roll(6)!@0`
//! one that was refused, and `gold:7@1` a new value that was told. What is handed back is told with what it noted. Where memory is
//! refused, the calls up to the next story are not made.

use crate::bindings::{bind_pure, bind_turn, unbind, unwatch, watch};
use crate::looked::{show_debug, show_kind, show_path, show_same};
use crate::objects::{Constant, Script, Witness};
use crate::shown::{show_done, show_passage, show_text};
use ink_check::{Story, check};
use ink_host::{PureFn, TurnFn, Watcher};
use ink_json::read_story;
use ink_model::{Fault, Refusal};
use ink_player::{Desk, PlayFault, Player, open_story};
use inkcases::{
    NoAnswer, Questions, Report, Table, Tally, ask_below, expanded, first_line, first_word,
    given_of, number, value_of,
};
use serde_json::Value as Json;
use std::alloc::Global;
use std::fmt::Display;

/// A player with the objects of tables.
pub(crate) type TestPlayer = Player<Constant, Script, Witness>;

/// A player that is called. After want of memory it answers nothing.
#[derive(Drop)]
struct Called<'p> {
    player: &'p mut TestPlayer,
    is_refused: bool,
}

/// Why there is no player.
#[derive(Drop)]
struct Unopened {
    why: NoAnswer,
}

/// Makes the calls of a table.
pub(crate) fn run_players(rt: &impl Print, alloc: Global, table: Table<'_>, tally: &mut Tally) {
    for part in table.text.split("\n= ").skip(1) {
        run_player(rt, alloc, table, first_line(part), tally);
    }
}

/// Opens a player, makes the calls of it, and closes it.
fn run_player(
    rt: &impl Print,
    alloc: Global,
    table: Table<'_>,
    (story, calls): (&str, &str),
    tally: &mut Tally,
) {
    match player_of(alloc, story) {
        Ok(mut player) => {
            let mut called = Called {
                player: &mut player,
                is_refused: false,
            };
            ask_below(rt, alloc, &mut called, table, (story, calls), tally);
            let _desk = player.close();
        }
        Err(why) => ask_below(
            rt,
            alloc,
            &mut Unopened { why },
            table,
            (story, calls),
            tally,
        ),
    }
}

fn player_of(alloc: Global, story: &str) -> Result<TestPlayer, NoAnswer> {
    let story = expanded(alloc, story)?;
    opened(alloc, story.as_slice(), Desk::new(alloc))
}

/// A player of a story.
pub(crate) fn opened<P: PureFn + Drop, T: TurnFn + Drop, W: Watcher + Drop>(
    alloc: Global,
    story: &[u8],
    desk: Desk<P, T, W>,
) -> Result<Player<P, T, W>, NoAnswer> {
    match open_story(alloc, story, desk) {
        Ok(player) => Ok(player),
        Err(end) => Err(why_not(&end.fault)),
    }
}

/// Why there is no player.
fn why_not(fault: &PlayFault) -> NoAnswer {
    match fault {
        PlayFault::Story(refusal) => NoAnswer::from_cause(refusal.cause),
        PlayFault::Start(fault) => NoAnswer::from(*fault),
        PlayFault::Run(_) => NoAnswer::NoQuestion,
    }
}

impl Questions for Unopened {
    fn answer(&mut self, said: &mut Report, story: &str, call: &str) -> Result<(), NoAnswer> {
        match call {
            "opened" => open(said, story),
            _ => Err(self.why),
        }
    }
}

impl Questions for Called<'_> {
    fn answer(&mut self, said: &mut Report, story: &str, call: &str) -> Result<(), NoAnswer> {
        if self.is_refused {
            return Err(NoAnswer::OutOfMemory);
        }
        let outcome = match call.strip_prefix("short ") {
            Some(call) => make_call(said, self.player, call, true),
            None if call == "opened" => open(said, story),
            None => make_call(said, self.player, call, false),
        };
        self.is_refused = said.is_refused() || matches!(outcome, Err(NoAnswer::OutOfMemory));
        outcome
    }

    fn miss(&mut self) {
        self.is_refused = true;
    }
}

// ---- calls of a story

/// Opens a story. Where its declarations fault the story is handed back, and what is answered is how that prints.
fn open(said: &mut Report, story: &str) -> Result<(), NoAnswer> {
    let story = accepted(said.alloc(), story)?;
    let desk: Desk<Constant, Script, Witness> = Desk::new(said.alloc());
    match Player::open(said.alloc(), story, desk) {
        Ok(player) => {
            let _desk = player.close();
            said.put("opened");
        }
        Err(end) => match end.fault {
            Fault::OutOfMemory => said.refuse(),
            _ => said.show(end),
        },
    }
    Ok(())
}

fn accepted(alloc: Global, story: &str) -> Result<Story, NoAnswer> {
    let story = expanded(alloc, story)?;
    let raw = read_story(alloc, story.as_slice())?;
    Ok(check(alloc, raw)?)
}

// ---- calls of a player

fn make_call(
    said: &mut Report,
    player: &mut TestPlayer,
    call: &str,
    shortly: bool,
) -> Result<(), NoAnswer> {
    let (word, rest) = first_word(call);
    match word {
        "set" => set(said, player, rest, shortly),
        "load" => load(said, player, rest, shortly),
        "load_text" => show_done(said, &player.load_text(rest), shortly),
        "choose" => land(said, player.choose(number(rest)?)),
        "jump" => land(said, player.jump(rest)),
        "flow" => land(said, player.flow(rest)),
        "drop" => land(said, player.drop_flow(rest)),
        "turn" => bind_turn(said, player, rest),
        "pure" => bind_pure(said, player, rest),
        "watch" => watch(said, player, rest),
        "unbind" => unbind(said, player, rest),
        "unwatch" => unwatch(said, player, rest),
        "continue" | "through" | "restart" => run(said, player, word, shortly),
        _ => ask(said, player, word, rest),
    }
}

/// A call that runs a player on.
pub(crate) fn run<P: PureFn, T: TurnFn, W: Watcher>(
    said: &mut Report,
    player: &mut Player<P, T, W>,
    word: &str,
    shortly: bool,
) -> Result<(), NoAnswer> {
    match word {
        "continue" => continue_line(said, player, shortly),
        "through" => through(said, player, shortly),
        "restart" => restart(said, player, shortly),
        _ => Err(NoAnswer::NoQuestion),
    }
}

fn continue_line<P: PureFn, T: TurnFn, W: Watcher>(
    said: &mut Report,
    player: &mut Player<P, T, W>,
    shortly: bool,
) -> Result<(), NoAnswer> {
    let passage = player.continue_line();
    show_passage(said, &passage, shortly)
}

fn through<P: PureFn, T: TurnFn, W: Watcher>(
    said: &mut Report,
    player: &mut Player<P, T, W>,
    shortly: bool,
) -> Result<(), NoAnswer> {
    let passage = player.through();
    show_passage(said, &passage, shortly)
}

fn restart<P: PureFn, T: TurnFn, W: Watcher>(
    said: &mut Report,
    player: &mut Player<P, T, W>,
    shortly: bool,
) -> Result<(), NoAnswer> {
    let outcome = player.restart();
    show_done(said, &outcome, shortly)
}

/// A call that changes nothing.
fn ask(said: &mut Report, player: &TestPlayer, word: &str, rest: &str) -> Result<(), NoAnswer> {
    match word {
        "can_continue" => tell(said, player.can_continue()),
        "fault" => show_fault(said, player),
        "flow_name" => tell(said, player.flow_name()),
        "visits" => tell(said, player.visits(rest)?),
        "get" => get(said, player, rest),
        "choices" => show_choices(said, player),
        "flows" => show_flows(said, player),
        "save" => save(said, player),
        "kind" => show_kind(said, player, rest),
        "has_watchers" => tell(said, player.desk().has_watchers()),
        "path" => show_path(said, player, rest),
        "same" => show_same(said, player, rest),
        "debug" => show_debug(said, player, rest),
        _ => Err(NoAnswer::NoQuestion),
    }
}

fn tell<D: Display + Drop>(said: &mut Report, answer: D) -> Result<(), NoAnswer> {
    said.show(answer);
    Ok(())
}

fn show_fault(said: &mut Report, player: &TestPlayer) -> Result<(), NoAnswer> {
    match player.fault() {
        Some(fault) => tell(said, fault),
        None => tell(said, "none"),
    }
}

fn get(said: &mut Report, player: &TestPlayer, name: &str) -> Result<(), NoAnswer> {
    let value = player.get(name)?;
    said.value(&value);
    Ok(())
}

fn save(said: &mut Report, player: &TestPlayer) -> Result<(), NoAnswer> {
    let save = player.save()?;
    let text = save.to_string(said.alloc())?;
    tell(said, text.as_str())
}

fn show_choices(said: &mut Report, player: &TestPlayer) -> Result<(), NoAnswer> {
    let choices = player.choices()?;
    for choice in choices.as_slice() {
        said.flag(" | ", !said.is_empty());
        show_text(said, &choice.text, choice.tags.as_slice());
    }
    said.flag("none", said.is_empty());
    Ok(())
}

fn show_flows(said: &mut Report, player: &TestPlayer) -> Result<(), NoAnswer> {
    let names = player.flows()?;
    for name in names.as_slice() {
        said.append(name.as_str());
    }
    Ok(())
}

fn land(said: &mut Report, outcome: Result<(), Refusal>) -> Result<(), NoAnswer> {
    outcome?;
    said.put("done");
    Ok(())
}

fn set(
    said: &mut Report,
    player: &mut TestPlayer,
    rest: &str,
    shortly: bool,
) -> Result<(), NoAnswer> {
    let (name, value) = first_word(rest);
    let value = given_of(value_of(said.alloc(), value)?)?;
    let outcome = player.set(name, value);
    show_done(said, &outcome, shortly)
}

fn load(
    said: &mut Report,
    player: &mut TestPlayer,
    save: &str,
    shortly: bool,
) -> Result<(), NoAnswer> {
    match Json::from_str(said.alloc(), save) {
        Ok(save) => show_done(said, &player.load(&save), shortly),
        Err(why) if why.is_memory() => Err(NoAnswer::OutOfMemory),
        Err(_) => Err(NoAnswer::NoQuestion),
    }
}
