//! Content, as it was read.

use crate::operator::Op;
use crate::shared::Shared;
use crate::text::Text;

/// A command of the story (docs/STORY_FORMAT.md, "Content"; what each does: docs/RUNNING.md). `Return` is that of
/// a function; `Turns` are those since a target was entered.
#[derive(Clone, Copy, Debug, PartialEq, Eq)]
pub enum Control {
    BeginEval,
    EndEval,
    Out,
    Pop,
    Duplicate,
    Nop,
    BeginString,
    EndString,
    BeginTag,
    EndTag,
    Return,
    ReturnTunnel,
    Thread,
    ChoiceCount,
    Turn,
    Turns,
    ReadCount,
    Visit,
    Done,
    End,
}

/// Where a divert, a call or a tunnel leads: by a path as it is spelled, or to what a variable holds.
#[derive(Drop)]
pub enum Destination {
    Path(Shared<Text>),
    Variable(Shared<Text>),
}

/// Content that holds no other, one variant for each form (docs/STORY_FORMAT.md, "Content"). Paths are kept as they are
/// spelled. `Declare` and `Assign` pop a value for a variable of that name, which is a temporary in the two after them;
/// `Variable` pushes what a variable holds, and `Count` the visits of a container. `Tag` is a tag given whole, by its text.
#[derive(Drop)]
pub enum Leaf {
    Text(Shared<Text>),
    Newline,
    Glue,
    Tag(Shared<Text>),
    Int(i32),
    Bool(bool),
    Void,
    Target(Shared<Text>),
    Pointer(Shared<Text>, i32),
    Control(Control),
    Op(Op),
    Divert {
        to: Destination,
        conditional: bool,
    },
    Call {
        to: Destination,
        conditional: bool,
    },
    Tunnel {
        to: Destination,
        conditional: bool,
    },
    External {
        name: Shared<Text>,
        arguments: u32,
        conditional: bool,
    },
    Declare(Shared<Text>),
    Assign(Shared<Text>),
    DeclareTemp(Shared<Text>),
    AssignTemp(Shared<Text>),
    Variable(Shared<Text>),
    Count(Shared<Text>),
    Choice {
        target: Shared<Text>,
        flags: u8,
    },
}

/// Content by itself: a leaf, or a container without what is in it, which stands at places of its own.
#[derive(Drop)]
pub enum Content {
    Leaf(Leaf),
    Container(Container),
}

/// A container by itself: how many contents it holds by index (`width`), how many containers by key (`keys`), and how many
/// contents there are in all, itself and what is in them included (`size`). `name` is the name that a container in list position
/// has beside its index; flags 1, 2 and 4 say that visits are counted, that turns are noted, and that only entry at the start
/// counts.
#[derive(Drop)]
pub struct Container {
    pub name: Option<Shared<Text>>,
    pub width: u32,
    pub keys: u32,
    pub size: u32,
    pub flags: u8,
}
