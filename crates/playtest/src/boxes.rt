//! Objects in boxes, of any types, and how many of them are let go.
//!
//! A question is words, done in turn on one player. A turn function, a pure function and a watcher are bound before them, and
//! three others at the word `again`. The story calls `act`, asks `ask` and sets `gold`.
//!
//! - `continue`, `through`, `restart`; `short`, which is `through`, of which want of memory is an answer
//! - `take_turn`, `take_pure`, `take_watcher`: takes an object away, and keeps it, as what was bound is kept at `again`
//! - `forget`: lets go of what is kept
//!
//! Watchers find no memory where `short` is the first word. The question `order` is what two watchers do, of two globals that a
//! story sets, in one list: `begin`, `told` and `end` with the name of the global.
//!
//! A turn function answers one call. The answer is that of each command that tells, as a player's; then how many turn
//! functions, pure functions and watchers were let go, of how many there are, as `0/2 0/2 0/2`; and behind `|` the same once the
//! player is closed.

use crate::objects::{Constant, Deed, Script, Witness};
use crate::players::{opened, run};
use ink_host::{Bound, HostDesk, Observer, PureBox, TurnBox, Watcher, WatcherBox};
use ink_model::{Given, Value};
use ink_player::Player;
use inkcases::{NoAnswer, Report};
use std::alloc::{AllocError, Global};
use std::cell::Cell;
use std::rc::Rc;

/// A story that calls a function of each kind and sets a global.
const STORY: &str =
    r##"{"inkVersion":21,"root":["ev",{"x()":"act"},"pop",{"x()":"ask"},"pop",7,{"VAR=":"gold","re":true},"/ev","done",{"global decl":["ev",5,{"VAR=":"gold"},"/ev","end",null]}]}"##;

/// A player of objects in boxes.
type BoxPlayer = Player<PureBox, TurnBox, WatcherBox>;

/// How many objects of each kind were bound, and what those of a kind hold as long as they are there.
#[derive(Drop)]
struct Tokens {
    bound: usize,
    turn: Rc<()>,
    pure: Rc<()>,
    watcher: Rc<()>,
}

impl Tokens {
    fn new(alloc: Global) -> Result<Tokens, AllocError> {
        Ok(Tokens {
            bound: 0,
            turn: Rc::new(alloc, ())?,
            pure: Rc::new(alloc, ())?,
            watcher: Rc::new(alloc, ())?,
        })
    }

    /// One object more of each kind.
    fn objects(&mut self, alloc: Global, finds_memory: bool) -> Result<Objects, NoAnswer> {
        let mut deeds = Vec::new(alloc);
        deeds.push(Deed::Gives(Given::Void))?;
        let turn = Box::new(alloc, Script::new(alloc, deeds, Some(self.turn.clone()?)))?;
        let deed = Deed::Gives(Given::Void);
        let pure = Box::new(alloc, Constant::new(alloc, deed, Some(self.pure.clone()?)))?;
        let token = Some(self.watcher.clone()?);
        let watcher = Box::new(alloc, Witness::new(alloc, finds_memory, token))?;
        self.bound = self.bound.saturating_add(1);
        Ok(Objects {
            turn,
            pure,
            watcher,
        })
    }

    /// Writes how many turn functions, pure functions and watchers were let go, of how many that were bound.
    fn show(&self, said: &mut Report) {
        self.show_kind(said, &self.turn);
        self.show_kind(said, &self.pure);
        self.show_kind(said, &self.watcher);
    }

    fn show_kind(&self, said: &mut Report, token: &Rc<()>) {
        let kept = Rc::strong_count(token);
        said.append("");
        said.show(self.bound.saturating_add(1).saturating_sub(kept));
        said.put("/");
        said.show(self.bound);
    }
}

/// An object of each kind.
#[derive(Drop)]
struct Objects {
    turn: Box<Script>,
    pure: Box<Constant>,
    watcher: Box<Witness>,
}

/// What was handed back.
#[derive(Drop)]
struct Kept {
    functions: Vec<Bound<PureBox, TurnBox>>,
    watchers: Vec<WatcherBox>,
}

/// Does the words of a question, and tells what was let go.
pub(crate) fn answer(said: &mut Report, question: &str) -> Result<(), NoAnswer> {
    if question == "order" {
        return tell_order(said);
    }
    let mut tokens = Tokens::new(said.alloc())?;
    play_question(said, &mut tokens, question)?;
    said.append("|");
    tokens.show(said);
    Ok(())
}

/// Does the words before and behind `again` on a player, which is closed at the end, and tells what was let go until then.
fn play_question(said: &mut Report, tokens: &mut Tokens, question: &str) -> Result<(), NoAnswer> {
    let alloc = said.alloc();
    let (words, more) = question.split_once("again").unwrap_or((question, ""));
    let finds_memory = !words.starts_with("short");
    let first = tokens.objects(alloc, finds_memory)?;
    let second = tokens.objects(alloc, finds_memory)?;
    let mut kept = Kept {
        functions: Vec::new(alloc),
        watchers: Vec::new(alloc),
    };
    let mut player = opened(alloc, STORY.as_bytes(), HostDesk::new(alloc))?;
    let Objects {
        turn,
        pure,
        watcher,
    } = first;
    let mut played = play_half(said, &mut player, &mut kept, turn, pure, watcher, words);
    let Objects {
        turn,
        pure,
        watcher,
    } = second;
    if played.is_ok() {
        played = play_half(said, &mut player, &mut kept, turn, pure, watcher, more);
    }
    if played.is_ok() {
        tokens.show(said);
    }
    let _objects = player.close();
    played
}

/// Binds an object of each kind, and does words.
fn play_half(
    said: &mut Report,
    player: &mut BoxPlayer,
    kept: &mut Kept,
    turn: TurnBox,
    pure: PureBox,
    watcher: WatcherBox,
    words: &str,
) -> Result<(), NoAnswer> {
    bind_turn(player, kept, turn)?;
    bind_pure(player, kept, pure)?;
    watch(player, kept, watcher)?;
    for word in words.split_whitespace() {
        play(said, player, kept, word)?;
    }
    Ok(())
}

fn bind_turn(player: &mut BoxPlayer, kept: &mut Kept, function: TurnBox) -> Result<(), NoAnswer> {
    match player.bind_turn("act", function) {
        Ok(was) => keep(&mut kept.functions, was),
        Err(_) => Err(NoAnswer::OutOfMemory),
    }
}

fn bind_pure(player: &mut BoxPlayer, kept: &mut Kept, function: PureBox) -> Result<(), NoAnswer> {
    match player.bind_pure("ask", function) {
        Ok(was) => keep(&mut kept.functions, was),
        Err(_) => Err(NoAnswer::OutOfMemory),
    }
}

fn watch(player: &mut BoxPlayer, kept: &mut Kept, watcher: WatcherBox) -> Result<(), NoAnswer> {
    match player.watch("gold", watcher) {
        Ok(was) => keep(&mut kept.watchers, was),
        Err(_) => Err(NoAnswer::OutOfMemory),
    }
}

fn keep<X: Drop>(kept: &mut Vec<X>, object: Option<X>) -> Result<(), NoAnswer> {
    if let Some(object) = object {
        kept.push(object)?;
    }
    Ok(())
}

/// Does a word that binds nothing.
fn play(
    said: &mut Report,
    player: &mut BoxPlayer,
    kept: &mut Kept,
    word: &str,
) -> Result<(), NoAnswer> {
    match word {
        "take_turn" => keep(&mut kept.functions, player.unbind("act")),
        "take_pure" => keep(&mut kept.functions, player.unbind("ask")),
        "take_watcher" => keep(&mut kept.watchers, player.unwatch("gold")),
        "forget" => {
            kept.functions.clear();
            kept.watchers.clear();
            Ok(())
        }
        _ => run_word(said, player, word),
    }
}

fn run_word(said: &mut Report, player: &mut BoxPlayer, word: &str) -> Result<(), NoAnswer> {
    said.append("");
    match word {
        "short" => run(said, player, "through", true),
        _ => run(said, player, word, false),
    }
}

// ---- the order of a round

/// A story that sets two globals.
const TWO_GLOBALS: &str =
    r##"{"inkVersion":21,"root":["ev",7,{"VAR=":"gold","re":true},8,{"VAR=":"silver","re":true},"/ev","done",{"global decl":["ev",5,{"VAR=":"gold"},6,{"VAR=":"silver"},"/ev","end",null]}]}"##;

/// What watchers did, a digit for each deed, the first in front.
type Deeds = Rc<Cell<u64>>;

/// A watcher that writes down what it does: its first digit as it is begun, the next as it is told, the third as it is ended.
#[derive(Drop)]
struct Chronicler {
    noted: Observer,
    digit: u64,
    deeds: Deeds,
}

impl Chronicler {
    fn new(alloc: Global, digit: u64, deeds: &Deeds) -> Result<Chronicler, AllocError> {
        Ok(Chronicler {
            noted: Observer::new(alloc),
            digit,
            deeds: deeds.clone()?,
        })
    }

    fn write(&self, step: u64) {
        let digit = self.digit.saturating_add(step);
        let deeds = self.deeds.get().saturating_mul(10);
        self.deeds.set(deeds.saturating_add(digit));
    }
}

impl Watcher for Chronicler {
    ghost state = { λ c. c.noted };

    fn begin(&mut self) {
        self.write(0);
        self.noted.begin()
    }

    fn changed(&mut self, stamp: u64, name: &str, value: &Value) -> Result<(), AllocError> {
        self.write(1);
        self.noted.changed(stamp, name, value)
    }

    fn end(&mut self) {
        self.write(2);
        self.noted.end()
    }
}

/// What two watchers do, in order.
fn tell_order(said: &mut Report) -> Result<(), NoAnswer> {
    let deeds: Deeds = Rc::new(said.alloc(), Cell::new(0))?;
    play_watched(said.alloc(), &deeds)?;
    for digit in format!(in said.alloc(); "{}", deeds.get())?.chars() {
        said.append(deed_of(digit));
    }
    Ok(())
}

/// Plays the story of two globals to its stop, watched by both.
fn play_watched(alloc: Global, deeds: &Deeds) -> Result<(), NoAnswer> {
    let silver = Box::new(alloc, Chronicler::new(alloc, 4, deeds)?)?;
    let gold = Box::new(alloc, Chronicler::new(alloc, 1, deeds)?)?;
    let mut desk = HostDesk::new(alloc);
    watch_on(&mut desk, "silver", silver)?;
    watch_on(&mut desk, "gold", gold)?;
    let mut player = opened(alloc, TWO_GLOBALS.as_bytes(), desk)?;
    let passage = player.through();
    let _objects = player.close();
    match passage {
        Ok(_) => Ok(()),
        Err(halt) => Err(NoAnswer::from(halt)),
    }
}

fn watch_on(desk: &mut HostDesk, name: &str, watcher: WatcherBox) -> Result<(), NoAnswer> {
    match desk.watch(name, watcher) {
        Ok(_) => Ok(()),
        Err(_) => Err(NoAnswer::OutOfMemory),
    }
}

/// The deed of a digit.
fn deed_of(digit: char) -> &'static str {
    match digit {
        '1' => "begin gold",
        '2' => "told gold",
        '3' => "end gold",
        '4' => "begin silver",
        '5' => "told silver",
        '6' => "end silver",
        _ => "nothing",
    }
}
