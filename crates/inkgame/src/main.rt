//! A small game that plays its story as any game would: it binds objects of its own, shows line by line what comes with its tags,
//! and then the choices or that the story is over, and takes a choice for each line of its input, which is the choice's number
//! (docs/HOST.md). A line `s` saves the game, and `l` goes back to that save, also after a fault. `n` tells what the game's objects
//! have noted.
#![tactic(auto)]

mod objects;
mod story;

use ink_player::{
    Bound, Desk, Passage, PlayEnd, PlayFault, Player, Refusal, Shown, Text, open_story,
};
use objects::{Die, Inn, Purse};
use std::alloc::{AllocError, Global};
use std::io;
use std::process::ExitCode;
use story::STORY;

/// The game's desk: a pure function, a turn function and a watcher.
type GameDesk<R> = Desk<Inn, Die, Purse<R>>;

/// The game's player.
type Game<R> = Player<Inn, Die, Purse<R>>;

/// Why the game ended before its input did.
#[derive(Drop)]
enum GameFault {
    Memory,
    Story(PlayFault),
    Terminal,
}

impl From<AllocError> for GameFault {
    fn from(_fault: AllocError) -> GameFault {
        GameFault::Memory
    }
}

impl<P: Drop, F: Drop, O: Drop> From<PlayEnd<P, F, O>> for GameFault {
    fn from(end: PlayEnd<P, F, O>) -> GameFault {
        let PlayEnd { fault, desk: _ } = end;
        GameFault::Story(fault)
    }
}

impl From<io::Error> for GameFault {
    fn from(_fault: io::Error) -> GameFault {
        GameFault::Terminal
    }
}

fn main(rt: HostRuntime) -> ExitCode {
    match run(rt) {
        Ok(()) => ExitCode::SUCCESS,
        Err(fault) => {
            let _ = complain(&rt, &fault);
            ExitCode::FAILURE
        }
    }
}

/// Says on standard error why the game ended before its input did: of a story that is refused why and where, and of one that
/// cannot be opened the fault.
fn complain(rt: &impl Eprint, fault: &GameFault) -> io::Result<()> {
    match fault {
        GameFault::Memory => eprintln!(rt; "inkgame: out of memory"),
        GameFault::Story(why) => eprintln!(rt; "inkgame: {why}"),
        GameFault::Terminal => eprintln!(rt; "inkgame: reading or writing failed"),
    }
}

/// Opens the story, and plays it with the game's objects.
fn run(rt: HostRuntime) -> Result<(), GameFault> {
    let alloc = rt.alloc();
    let desk: GameDesk<HostRuntime> = Desk::new(alloc);
    let mut game = open_story(alloc, STORY.as_bytes(), desk)?;
    bind(alloc, rt, &mut game)?;
    play(&rt, alloc, &mut game)
}

/// Binds the functions that the story calls, and watches its gold.
fn bind<R: Print + Drop>(alloc: Global, rt: R, game: &mut Game<R>) -> Result<(), GameFault> {
    bound(game.bind_turn("throw", Die::new(alloc, 40)))?;
    bound(game.bind_pure("inn", Inn::new(alloc, "Blue Heron")?))?;
    bound(game.watch("gold", Purse::new(alloc, rt)))
}

/// Whether an object was bound: the one reason why not is a refused request for memory.
fn bound<X: Drop, E: Drop>(outcome: Result<X, E>) -> Result<(), GameFault> {
    match outcome {
        Ok(_) => Ok(()),
        Err(_) => Err(GameFault::Memory),
    }
}

/// Plays line by line, to the end of the input; behind the story's end `l` still goes back.
fn play<R: Print + Drop>(
    rt: &(impl Print + Input + Alloc<A = Global>),
    alloc: Global,
    game: &mut Game<R>,
) -> Result<(), GameFault> {
    let mut saved: Option<Text> = None;
    tell(rt, game)?;
    for line in rt.lines(alloc) {
        let line = line?;
        match line.trim() {
            "s" => save(rt, game, &mut saved)?,
            "l" => load(rt, game, &saved)?,
            "n" => count(rt, game)?,
            word => match word.parse::<u32>() {
                Ok(number) => take(rt, game, number)?,
                Err(_) => println!(rt; "There is no such choice.")?,
            },
        }
    }
    Ok(())
}

/// Saves the game. A save is a text, which a larger game would write to a file.
fn save<R: Print + Drop>(
    rt: &impl Print,
    game: &Game<R>,
    saved: &mut Option<Text>,
) -> io::Result<()> {
    match game.save_text() {
        Ok(text) => {
            *saved = Some(text);
            println!(rt; "Saved.")
        }
        Err(refusal) => println!(rt; "{refusal}"),
    }
}

/// Goes back to the save, and shows the choices that are open there. What the watchers saw is told by then.
fn load<R: Print + Drop>(
    rt: &impl Print,
    game: &mut Game<R>,
    saved: &Option<Text>,
) -> io::Result<()> {
    let Some(save) = saved else {
        return println!(rt; "There is no save.");
    };
    match game.load_text(save.as_str()) {
        Ok(_events) => offer(rt, game),
        Err(halt) => println!(rt; "{halt}"),
    }
}

/// Shows how often the die was asked for a throw and the gold has changed. The objects on the desk have noted it.
fn count<R: Print + Drop>(rt: &impl Print, game: &Game<R>) -> io::Result<()> {
    if let Some(Bound::Turn(die)) = game.desk().function("throw") {
        println!(rt; "The die was asked for a throw {} times.", die.throws())?;
    }
    if let Some(purse) = game.desk().watcher("gold") {
        println!(rt; "The gold has changed {} times.", purse.changes())?;
    }
    Ok(())
}

/// Shows the choices that are open.
fn offer<R: Print + Drop>(rt: &impl Print, game: &Game<R>) -> io::Result<()> {
    match game.choices() {
        Ok(choices) => list(rt, choices.as_slice()),
        Err(refusal) => println!(rt; "{refusal}"),
    }
}

/// Takes a choice, and shows what comes; or tells why it was not taken.
fn take<R: Print + Drop>(rt: &impl Print, game: &mut Game<R>, number: u32) -> io::Result<()> {
    match game.choose(number) {
        Ok(()) => tell(rt, game),
        Err(Refusal::NotAChoice) => println!(rt; "There is no such choice."),
        Err(refusal) => println!(rt; "{refusal}"),
    }
}

/// Shows line by line what comes, up to the next choice.
fn tell<R: Print + Drop>(rt: &impl Print, game: &mut Game<R>) -> io::Result<()> {
    // Each loop has to end, and no contract says that a story stops. So its lines are counted, up to a number that none reaches.
    for _line in 0..u64::MAX {
        match game.continue_line() {
            Ok(line) => {
                show(rt, &line)?;
                let more = line.more;
                game.reuse(line);
                if !more {
                    return Ok(());
                }
            }
            Err(halt) => return println!(rt; "{halt}"),
        }
    }
    Ok(())
}

/// Shows a line and its tags, and behind the last one the choices, or that the story is over.
fn show(rt: &impl Print, line: &Passage) -> io::Result<()> {
    print!(rt; "{}", line.text.as_str())?;
    for tag in line.tags.as_slice() {
        println!(rt; "  # {}", tag.as_str())?;
    }
    if is_over(line) {
        return println!(rt; "The story is over.");
    }
    list(rt, line.choices.as_slice())
}

/// Whether nothing comes behind a line: flow has stopped, and there is no choice.
fn is_over(line: &Passage) -> bool {
    !line.more && line.choices.is_empty()
}

/// Shows choices by their numbers.
fn list(rt: &impl Print, choices: &[Shown]) -> io::Result<()> {
    for (number, choice) in choices.iter().enumerate() {
        println!(rt; "  {number}: {}", choice.text.as_str())?;
    }
    Ok(())
}
