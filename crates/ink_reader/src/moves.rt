//! The calls of a player that a reading makes, each as a command.

ghost use Rattle.std.specs.Prelude.{◌≡◌, Some, IfOk};
ghost use Rattle.serde_json.specs.Data.{Data};
ghost use Rattle.serde_json.specs.View.{view};
ghost use Rattle.serde_json.specs.Written.{compact_text};
ghost use Rattle.ink_model.specs.Protocol.Answer.{reply_of, reply_of_events, reply_of_landing, reply_of_value};
ghost use Rattle.ink_model.specs.Protocol.Command as command;
ghost use Rattle.ink_player.specs.Saving.{ReadsAsState};
ghost use Rattle.ink_player.specs.Standing.{state_of, story_of};
ghost use Rattle.ink_protocol.specs.Replies.{IsTextOf, reply_of_json, reply_of_text};
ghost use Rattle.ink_reader.specs.Deeds.{Gave};

use ink_host::{PureFn, TurnFn, Watcher};
use ink_model::{Event, Halt, Passage, Refusal, Seq, Text, Value};
use ink_player::Player;
use serde_json::Value as Json;

/// Goes on by a line.
pub(crate) fn next_line<P: PureFn, F: TurnFn, O: Watcher>(
    player: &mut Player<P, F, O>,
) -> Result<Passage, Halt>
    ensures { Gave P.meaning F.log F.refusals O.state player.old command.Continue (reply_of result) player.new }
{
    player.continue_line()
}

/// Takes a choice.
pub(crate) fn take_choice<P: PureFn, F: TurnFn, O: Watcher>(
    player: &mut Player<P, F, O>,
    index: u32,
) -> Result<(), Refusal>
    ensures { Gave P.meaning F.log F.refusals O.state player.old (command.Choose index) (reply_of_landing result) player.new }
{
    player.choose(index)
}

/// Goes on where a save stands.
pub(crate) fn load_save<P: PureFn, F: TurnFn, O: Watcher>(
    player: &mut Player<P, F, O>,
    save: &Json,
) -> Result<Seq<Event>, Halt>
    ensures { Gave P.meaning F.log F.refusals O.state player.old (command.Load (Some (view save.now))) (reply_of_events result) player.new }
{
    player.load(save)
}

/// Begins the story anew.
pub(crate) fn begin_anew<P: PureFn, F: TurnFn, O: Watcher>(
    player: &mut Player<P, F, O>,
) -> Result<Seq<Event>, Halt>
    ensures { Gave P.meaning F.log F.refusals O.state player.old command.Restart (reply_of_events result) player.new }
{
    player.restart()
}

/// Where the story stands.
pub(crate) fn save_of<P: PureFn, F: TurnFn, O: Watcher>(
    player: &Player<P, F, O>,
) -> Result<Text, Refusal>
    ensures gave { (j : Data) × IsTextOf j result × Gave P.meaning F.log F.refusals O.state player.now command.Save (reply_of_text j result) player.now }
    ensures reads { IfOk result (λ text. (j : Data) × (text ≡ compact_text j) × ReadsAsState (story_of player.now) j (state_of player.now)) }
{
    player.save_text()
}

/// Where the story stands, as a value.
pub(crate) fn place_of<P: PureFn, F: TurnFn, O: Watcher>(
    player: &Player<P, F, O>,
) -> Result<Json, Refusal>
    ensures { Gave P.meaning F.log F.refusals O.state player.now command.Save (reply_of_json result) player.now }
{
    player.save()
}

/// What a global is.
pub(crate) fn value_of<P: PureFn, F: TurnFn, O: Watcher>(
    player: &Player<P, F, O>,
    name: &str,
) -> Result<Value, Refusal>
    ensures { Gave P.meaning F.log F.refusals O.state player.now (command.Get name.now) (reply_of_value result) player.now }
{
    player.get(name)
}
