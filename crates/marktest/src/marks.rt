//! Marks of a machine. The story of a case is run as often as it has moves, each time with a machine and objects made anew: so
//! many moves far, there a mark is started, and more moves are made, up to a fault. Then the machine goes back, or forgets the
//! mark, and it has to be as a twin that has objects of its own and never had a mark.
//!
//! A question is commands apart by `; `. First come `turn NAME GIFT..` and `pure NAME GIFT`, which bind a function of the host to
//! what it gives, then `run`, and `choose N` and `jump PATH` for each stop of flow; all that lies between is run. A move is a step or
//! such a command. The answer is how many marks there were, one before each move and one at the end, and that all was alike; or the
//! first difference: the moves before the mark, what was done, and the first line that differs, with that of the twin behind it.

use crate::plays::{Play, Way};
use crate::sessions::Session;
use crate::shown::compare;
use inkcases::{NoAnswer, Report};

/// How many moves are made at the most while a mark stands.
const MOST: usize = 50;

/// The most moves of a session.
const LONGEST: usize = 1_000;

/// The answer to a question about a story.
pub(crate) fn answer(said: &mut Report, story: &str, question: &str) -> Result<(), NoAnswer> {
    let session = Session::read(said.alloc(), story, question)?;
    let mut play = Play::open(said.alloc(), &session)?;
    compare_moments(said, &session, &mut play)
}

fn compare_moments(
    said: &mut Report,
    session: &Session<'_>,
    play: &mut Play,
) -> Result<(), NoAnswer> {
    let moves = play.count_moves(session, LONGEST)?;
    for moment in 0..=moves {
        let mut found = Report::new(said.alloc());
        compare_at(&mut found, session, play, moment)?;
        if !found.is_empty() || found.is_refused() {
            said.number("after ", moment as u64);
            said.put(" moves: ");
            said.add(&found);
            return Ok(());
        }
    }
    said.show(moves.saturating_add(1));
    said.put(" marks: alike");
    Ok(())
}

/// A twin as it is at a moment, and once it has gone on with objects made anew.
#[derive(Drop)]
struct Twin {
    here: Report,
    beyond: Report,
    given: usize,
}

/// Compares what a machine has after so many moves with that of its twin: once it has gone back there, and once it has gone on from
/// there and forgotten its mark.
fn compare_at(
    found: &mut Report,
    session: &Session<'_>,
    play: &mut Play,
    moment: usize,
) -> Result<(), NoAnswer> {
    let mut twin = Twin {
        here: Report::new(found.alloc()),
        beyond: Report::new(found.alloc()),
        given: 0,
    };
    read_twin(found, session, play, moment, &mut twin)?;
    compare_back(found, session, play, moment, &twin)?;
    compare_forgotten(found, session, play, moment, &twin)
}

/// The twin. To go back without a mark changes nothing in it, and neither does making room.
fn read_twin(
    found: &mut Report,
    session: &Session<'_>,
    play: &mut Play,
    moment: usize,
    twin: &mut Twin,
) -> Result<(), NoAnswer> {
    play.play_to(session, moment)?;
    play.show(&mut twin.here);
    twin.given = play.given;
    compare_number(found, "back without a mark", play.machine.back(), 0);
    compare_here(found, "back without a mark", play, &twin.here);
    play.machine.make_room(MOST)?;
    let room = play.machine.room().min(MOST);
    compare_number(found, "room", room as u64, MOST as u64);
    compare_here(found, "room", play, &twin.here);
    play.renew(session, twin.given)?;
    let way = play.go_far(session, MOST);
    play.show_after(&mut twin.beyond, way);
    Ok(())
}

/// A machine that goes back to its mark is as the twin, and goes on as the twin does. What happens before it goes back, want of
/// memory too, is no matter. Where there was a move, an older mark stood before the last one.
fn compare_back(
    found: &mut Report,
    session: &Session<'_>,
    play: &mut Play,
    moment: usize,
    twin: &Twin,
) -> Result<(), NoAnswer> {
    play.play_to(session, moment.saturating_sub(1))?;
    if moment > 0 {
        play.machine.mark();
        let _is_sent = play.play_on(session)?;
    }
    play.machine.mark();
    compare_here(found, "mark", play, &twin.here);
    let way = play.go_far(session, MOST);
    let most = way.most_own();
    let own = play.own_writes();
    let writes = play.machine.writes();
    let count = play.machine.back();
    compare_here(found, "back", play, &twin.here);
    compare_number(
        found,
        "back of more than the writes",
        count.max(writes),
        writes,
    );
    compare_number(found, "writes of own fields", own.max(most), most);
    compare_number(found, "writes without a mark", play.machine.writes(), 0);
    play.renew(session, twin.given)?;
    let way = play.go_far(session, MOST);
    compare_beyond(found, "beyond", play, way, &twin.beyond);
    Ok(())
}

/// A machine that goes on from its mark and forgets it is as the twin that has gone on.
fn compare_forgotten(
    found: &mut Report,
    session: &Session<'_>,
    play: &mut Play,
    moment: usize,
    twin: &Twin,
) -> Result<(), NoAnswer> {
    play.play_to(session, moment)?;
    play.machine.mark();
    play.renew(session, twin.given)?;
    let way = play.go_far(session, MOST);
    compare_beyond(found, "marked", play, way, &twin.beyond);
    play.machine.forget();
    compare_beyond(found, "forget", play, way, &twin.beyond);
    compare_number(found, "writes without a mark", play.machine.writes(), 0);
    Ok(())
}

fn compare_here(found: &mut Report, what: &str, play: &Play, wanted: &Report) {
    let mut came = Report::new(found.alloc());
    play.show(&mut came);
    compare(found, what, &came, wanted);
}

fn compare_beyond(found: &mut Report, what: &str, play: &Play, way: Way, wanted: &Report) {
    let mut came = Report::new(found.alloc());
    play.show_after(&mut came, way);
    compare(found, what, &came, wanted);
}

fn compare_number(found: &mut Report, what: &str, came: u64, wanted: u64) {
    if came != wanted && found.is_empty() {
        found.put(what);
        found.number(": ", came);
        found.number(" for ", wanted);
    }
}
