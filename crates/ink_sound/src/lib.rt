//! What holds of every state that a session comes to, what commands do to flows, and as which game a save reads (docs/SAVES.md):
//! laws of the definitions alone, each the contract of a function that does nothing.
#![tactic(auto)]

ghost use Rattle.ink_sound.specs.Laws.{AcceptedFit, CommandsFit, CutsFit, DroppingKeepsOthers, FlowsStay, GoingKeepsFlows, LinesReload, MomentsFit, OneSpelling, OpeningsFit, OtherFlowsDoNotShow, ReadsExactly, SessionsFit, SessionsReload, SettlingFits, SpelledFit, SpellsFlat, SpellsPlain, StepsFit, TextsReadBack};

/// An accepted story has what the laws ask of one.
pub fn accepted_stories_fit()
    ensures { AcceptedFit }
{}

/// What the type of an accepted story says of it is enough for that.
pub fn spelled_stories_fit()
    ensures { SpelledFit }
{}

/// A step of a sound configuration leads to a sound one.
pub fn steps_keep_sound()
    ensures { StepsFit }
{}

/// Each moment of a run from a sound configuration is sound.
pub fn runs_keep_sound()
    ensures { MomentsFit }
{}

/// A line that is cut is kept in a sound configuration, from which flow goes on.
pub fn cut_lines_keep_sound()
    ensures { CutsFit }
{}

/// A configuration that a command leaves, settled, is as sound as before, and at rest.
pub fn settling_keeps_sound()
    ensures { SettlingFits }
{}

/// A story is opened in a sound state, at rest.
pub fn openings_are_sound()
    ensures { OpeningsFit }
{}

/// Each command leads from sound states at rest to such states.
pub fn commands_keep_sound()
    ensures { CommandsFit }
{}

/// Every state of a session is sound, and at rest.
pub fn sessions_are_sound()
    ensures { SessionsFit }
{}

/// Only `flow`, `drop`, `load` and `restart` change the flows that stand aside.
pub fn flows_stay()
    ensures { FlowsStay }
{}

/// Going to a flow leaves all flows as they are, and makes that one as the last where it is not there.
pub fn going_keeps_flows()
    ensures { GoingKeepsFlows }
{}

/// Taking a flow away leaves all others as they are.
pub fn dropping_keeps_others()
    ensures { DroppingKeepsOthers }
{}

/// What stands aside is seen by `save`, `flow` and `drop` alone.
pub fn other_flows_do_not_show()
    ensures { OtherFlowsDoNotShow }
{}

/// What a session comes to is read from its spelling.
pub fn sessions_reload()
    ensures { SessionsReload }
{}

/// A JSON value reads as one game at most.
pub fn one_game_a_spelling()
    ensures { OneSpelling }
{}

/// A JSON value is read as a sound game exactly where it is that one's spelling, at rest.
pub fn reading_is_exact()
    ensures { ReadsExactly }
{}

/// A spelling nests at most ten deep.
pub fn spellings_are_flat()
    ensures { SpellsFlat }
{}

/// A spelling has no float.
pub fn spellings_have_no_float()
    ensures { SpellsPlain }
{}

/// The compact text of a sound game's spelling, at rest, is read back as that spelling.
pub fn spelled_texts_read_back()
    ensures { TextsReadBack }
{}

/// `save` answers that text, and the line that loads it is read as the command that loads the spelling.
pub fn save_lines_reload()
    ensures { LinesReload }
{}
