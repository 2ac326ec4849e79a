//! The laws of lines (docs/RUNNING.md, "Lines"), over the definitions alone, each the contract of a function that does nothing;
//! and the search for a line, which goes forward once.
#![tactic(auto)]

ghost use Rattle.ink_line.specs.Laws.{CallsAlone, ContinuesAreLaid, LinesAreLaid, OneLine, OnlyItsAnswers, OverIsTheLine, SearchesFind, SearchesKnow, ShownIsFirm, WrittenBehind};

/// Lines one after another are one run, laid end to end: each call of it is made once.
pub fn lines_are_one_run()
    ensures { LinesAreLaid }
{}

/// A row of `continue` commands, with nothing between them, is one run: the calls among its events are that run's.
pub fn continues_are_one_run()
    ensures { ContinuesAreLaid }
{}

/// A line calls no turn function in a step at whose start a newline is still shown.
pub fn calls_stand_alone()
    ensures { CallsAlone }
{}

/// A line needs just the answers that it uses.
pub fn lines_use_only_their_answers()
    ensures { OnlyItsAnswers }
{}

/// A run has at most one line.
pub fn lines_are_determined()
    ensures { OneLine }
{}

/// A newline that stays shown until a step makes it firm is firm, whatever stands behind it.
pub fn shown_newlines_are_firm()
    ensures { ShownIsFirm }
{}

/// A Text or Tag that stands behind an open newline after a step was written in that step.
pub fn what_stands_behind_was_written()
    ensures { WrittenBehind }
{}

/// After each step of a search: no step so far has a firm newline, or one newline is open, or the line is known.
pub fn searches_know_where_they_are()
    ensures { SearchesKnow }
{}

/// To keep the moment at each newline, run on, and go back there or forget it comes to the line.
pub fn searches_find_the_line()
    ensures { SearchesFind }
{}

/// Once a search is over the line is known.
pub fn searches_that_are_over_know_the_line()
    ensures { OverIsTheLine }
{}
