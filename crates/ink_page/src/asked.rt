//! Functions of a story that are asked of its reader.

ghost use Rattle.std.specs.Prelude.{◌≡◌, [], IfOk, OnOk, option_map};
ghost use Rattle.ink_check.specs.Standing as accepted;
ghost use Rattle.ink_model.specs.Story.Tree as trees;
ghost use Rattle.ink_page.specs.Turns.{AllAnswered, AsksMore, IsAnswered, function_at, log_of, refusals_of};
ghost use Rattle.ink_tree.specs.Nodes.{node_place, story_tree};

use crate::given::read_given;
use crate::page::{Look, line_page};
use crate::question::question;
use crate::sentences::refusal_words;
use ink_check::Story;
use ink_host::{Desk, Recorder, TurnFn};
use ink_model::{Given, HostFault, Leaf, Refusal, Text, Value};
use ink_tree::{NodeId, Tree};
use std::alloc::{AllocError, Global};
use std::io::{self, ErrorKind};

/// A function that asks the reader: it shows its name and its arguments, and what is typed in one line is its answer. A line that is
/// no UTF-8 is told to be not understood, and it asks again. It refuses at the end of the input, where showing or reading fails, and
/// where there is no memory for what was typed: it has asked then.
#[derive(Drop)]
pub struct Asked<R> {
    name: Text,
    look: Look,
    rt: R,
    noted: Recorder,
    alloc: Global,
}

impl<R: Input + Print + Drop> Asked<R> {
    /// The function of a name, which was not called yet. The one error is a refused request for memory.
    pub fn new(alloc: Global, rt: R, look: Look, name: &str) -> Result<Asked<R>, AllocError>
        ensures name { IfOk result (λ asked. asked.name ≡ name.now) }
        ensures look { IfOk result (λ asked. asked.look ≡ look) }
        ensures calls { IfOk result (λ asked. asked.noted.log ≡ []) }
    {
        Ok(Asked {
            name: Text::from_str(alloc, name)?,
            look,
            rt,
            noted: Recorder::new(alloc),
            alloc,
        })
    }

    // Asks, and gives what is answered, none where it is not. The one error is a refused request for memory before it asks.
    fn ask(&self, arguments: &[Value]) -> Result<Option<Given>, AllocError> {
        let question = question(self.alloc, self.look, self.name.as_str(), arguments)?;
        Ok(self.answer(question.as_str()))
    }

    // Asks until a line is UTF-8, and gives what it answers: none at the end of the input, where showing or reading fails, or where
    // memory was refused for what was typed.
    fn answer(&self, question: &str) -> Option<Given> {
        // Each loop has to end. So the lines are counted, up to a number that nobody types.
        for _line in 0..u64::MAX {
            let mut line = String::new(self.alloc);
            match ask_line(&self.rt, question, &mut line) {
                Ok(0) => return None,
                Ok(_) => return read_given(self.alloc, line.as_str()).ok(),
                Err(error) if error.kind() == ErrorKind::InvalidData => self.say_unclear()?,
                Err(_) => return None,
            }
        }
        None
    }

    // Says that a line was not understood; none where that fails.
    fn say_unclear(&self) -> Option<()> {
        let words = refusal_words(Refusal::BadCommand);
        let page = line_page(self.alloc, self.look, words, &[]).ok()?;
        println!(&self.rt; "{}", page.as_str()).ok()
    }
}

impl<R: Input + Print + Drop> TurnFn for Asked<R> {
    ghost log = { λ a. a.noted.log };

    ghost refusals = { λ a. a.noted.refusals };

    fn call(&mut self, stamp: u64, arguments: &[Value]) -> Result<Given, HostFault> {
        let call = self.noted.open(stamp, arguments)?;
        let Ok(answer) = self.ask(arguments) else {
            return Err(self.noted.lack());
        };
        let Some(given) = answer else {
            return Err(self.noted.refuse(call));
        };
        // A text that was just made has one owner, and room for one more.
        self.noted.answer(call, given)
    }
}

// Shows a question, and reads a line.
fn ask_line(rt: &(impl Input + Print), question: &str, line: &mut String) -> io::Result<usize> {
    print!(rt; "{question} = ")?;
    rt.read_line(line)
}

/// A turn function that was bound, or one that asks.
#[derive(Drop)]
pub enum Turn<F, G> {
    Bound(F),
    Asked(G),
}

impl<F: TurnFn, G: TurnFn> TurnFn for Turn<F, G> {
    ghost log = { λ t. log_of F.log G.log t };

    ghost refusals = { λ t. refusals_of F.refusals G.refusals t };

    fn call(&mut self, stamp: u64, arguments: &[Value]) -> Result<Given, HostFault> {
        match self {
            Turn::Bound(function) => function.call(stamp, arguments),
            Turn::Asked(function) => function.call(stamp, arguments),
        }
    }
}

/// Binds each function that a story calls, that nothing is bound to yet and that has no knot of its own, to an object that asks.
/// The one error is a refused request for memory; functions that were found before ask then.
pub fn ask_for_the_rest<R: Input + Print + Copy + Drop, P, F, O>(
    alloc: Global,
    rt: R,
    look: Look,
    story: &Story,
    desk: &mut Desk<P, Turn<F, Asked<R>>, O>,
) -> Result<(), AllocError>
    ensures asks { AsksMore look (accepted.story_tree story.now) desk.old desk.new }
    ensures all { OnOk result (AllAnswered (accepted.story_tree story.now) desk.new.functions) }
{
    let tree = story.tree();
    for number in 0..tree.len() {
        if let Some(name) = called(tree, NodeId { number }) {
            ask_for(alloc, rt, look, tree, name, desk)?;
        }
    }
    Ok(())
}

// Binds a function to an object that asks, where nothing is bound to its name and that is no knot.
fn ask_for<R: Input + Print + Copy + Drop, P, F, O>(
    alloc: Global,
    rt: R,
    look: Look,
    tree: &Tree,
    name: &str,
    desk: &mut Desk<P, Turn<F, Asked<R>>, O>,
) -> Result<(), AllocError>
    ensures asks { AsksMore look (story_tree tree.now) desk.old desk.new }
    ensures answered { OnOk result (IsAnswered (story_tree tree.now) name.now desk.new.functions) }
{
    if desk.kind(name).is_some() || tree.knot(name).is_some() {
        return Ok(());
    }
    let asked = Asked::new(alloc, rt, look, name)?;
    match desk.bind_turn(name, Turn::Asked(asked)) {
        Ok(old) => match old {
            None => Ok(()),
            Some(_) => unreachable!(),
        },
        Err(Turn::Asked(_asked)) => Err(AllocError),
        Err(Turn::Bound(_)) => unreachable!(),
    }
}

// The function of the host that a content calls.
fn called(tree: &Tree, node: NodeId) -> Option<&str>
    ensures { let s = story_tree tree.now in option_map (λ name. name.now) result ≡ function_at (trees.at s (node_place s node)) }
{
    match tree.leaf(node) {
        Some(Leaf::External { name, .. }) => Some(name.as_str()),
        _ => None,
    }
}
