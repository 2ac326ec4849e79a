//! Plays: machines that are run through sessions, each with objects of its own.

use crate::sessions::{Command, Session, TestDesk};
use crate::shown::{show_globals, show_machine};
use ink_host::Desk;
use ink_step::{Machine, Parts};
use ink_trail::Undo;
use inkcases::{NoAnswer, Report};
use std::alloc::Global;

/// A machine, its objects, and how many commands it was given.
#[derive(Drop)]
pub(crate) struct Play {
    alloc: Global,
    pub machine: Machine,
    desk: TestDesk,
    pub given: usize,
}

/// How far a play has gone, and why it went no further, where that is a fault or a refusal.
#[derive(Clone, Copy)]
pub(crate) struct Way {
    moves: usize,
    halt: Option<NoAnswer>,
}

impl Way {
    /// How many changes of a machine's own fields there are at the most: two for each move, and for the one that faulted.
    pub(crate) fn most_own(&self) -> u64 {
        (self.moves as u64).saturating_add(1).saturating_mul(2)
    }
}

impl Play {
    /// At a story's start, with no objects.
    pub(crate) fn open(alloc: Global, session: &Session<'_>) -> Result<Play, NoAnswer> {
        let machine = opened(alloc, session)?;
        Ok(Play {
            alloc,
            machine,
            desk: Desk::new(alloc),
            given: 0,
        })
    }

    /// Begins anew, and makes so many moves of a session: its steps, and its commands.
    pub(crate) fn play_to(&mut self, session: &Session<'_>, moves: usize) -> Result<(), NoAnswer> {
        self.machine = opened(self.alloc, session)?;
        self.machine.begin();
        self.renew(session, 0)?;
        for _move in 0..moves {
            let _is_sent = self.play_on(session)?;
        }
        Ok(())
    }

    /// Puts objects in the place of its own that nobody has called yet; the next command is the one of a number.
    pub(crate) fn renew(&mut self, session: &Session<'_>, given: usize) -> Result<(), NoAnswer> {
        self.given = given;
        self.desk = Desk::new(self.alloc);
        session.bind(self.alloc, &mut self.desk)
    }

    /// The next move of a session, where between two commands the text is taken; false at the session's end.
    pub(crate) fn play_on(&mut self, session: &Session<'_>) -> Result<bool, NoAnswer> {
        if self.machine.can_go_on() {
            return self.step(session);
        }
        self.machine.forget();
        self.machine.settle();
        let is_sent = self.send(session)?;
        self.machine.begin();
        Ok(is_sent)
    }

    // A step; where flow has stopped the next command alone, as a mark allows; false where there is none.
    fn go_on(&mut self, session: &Session<'_>) -> Result<bool, NoAnswer> {
        if self.machine.can_go_on() {
            return self.step(session);
        }
        self.send(session)
    }

    fn step(&mut self, session: &Session<'_>) -> Result<bool, NoAnswer> {
        let _end = self.machine.step(&session.story, &mut self.desk, false)?;
        Ok(true)
    }

    fn send(&mut self, session: &Session<'_>) -> Result<bool, NoAnswer> {
        match session.command(self.given) {
            Some(Command::Choose(number)) => self.machine.choose(&session.story, number)?,
            Some(Command::Jump(spot)) => self.machine.jump(&session.story, spot)?,
            None => return Ok(false),
        }
        self.given = self.given.saturating_add(1);
        Ok(true)
    }

    /// How many moves a session has up to its end or its fault, of which the last begins none; so many at the most.
    pub(crate) fn count_moves(
        &mut self,
        session: &Session<'_>,
        most: usize,
    ) -> Result<usize, NoAnswer> {
        self.play_to(session, 0)?;
        for moves in 0..most {
            match self.play_on(session) {
                Ok(true) => {}
                Ok(false) | Err(NoAnswer::Fault(_)) => return Ok(moves),
                Err(why) => return Err(why),
            }
        }
        Ok(most)
    }

    /// Goes on for so many moves at the most, with nothing done between a stop and the next command, as a mark asks for.
    pub(crate) fn go_far(&mut self, session: &Session<'_>, most: usize) -> Way {
        for moves in 0..most {
            match self.go_on(session) {
                Ok(true) => {}
                Ok(false) => return Way { moves, halt: None },
                Err(why) => {
                    return Way {
                        moves,
                        halt: Some(why),
                    };
                }
            }
        }
        Way {
            moves: most,
            halt: None,
        }
    }

    /// How many changes the machine counted since its mark beside those of its parts: the changes of its own fields.
    pub(crate) fn own_writes(&self) -> u64 {
        let Parts {
            flow,
            shared,
            output,
            ..
        } = self.machine.parts();
        let own = self.machine.writes();
        let own = own.saturating_sub(flow.threads.writes());
        let own = own.saturating_sub(flow.stack.writes());
        let own = own.saturating_sub(flow.choices.writes());
        let own = own.saturating_sub(shared.globals.writes());
        let own = own.saturating_sub(shared.counts.writes());
        own.saturating_sub(output.writes())
    }

    /// Writes all that the machine has.
    pub(crate) fn show(&self, said: &mut Report) {
        show_machine(said, &self.machine);
    }

    /// Writes how a play went on, and all that the machine has then: after a fault its globals, since it has no other use. There is
    /// no answer where memory was refused on the way.
    pub(crate) fn show_after(&self, said: &mut Report, way: Way) {
        said.number("moves ", way.moves as u64);
        match way.halt {
            Some(why) => {
                said.put(", then ");
                said.halt(why);
                said.put("\n");
                show_globals(said, self.machine.globals());
            }
            None => {
                said.put("\n");
                self.show(said);
            }
        }
    }
}

/// A machine at a story's start.
fn opened(alloc: Global, session: &Session<'_>) -> Result<Machine, NoAnswer> {
    match Machine::open(alloc, &session.story) {
        Ok(machine) => Ok(machine),
        Err(unopened) => Err(NoAnswer::from(unopened.fault)),
    }
}
