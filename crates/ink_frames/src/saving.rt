//! Frames and their temporaries as a save lends and gives them.

ghost use Rattle.std.specs.Prelude.{◌≡◌, true, option_map, Some, None, if◌then◌else◌};
ghost use Rattle.ink_model.specs.Variables.Rows.{name_order, rows_rise};
ghost use Rattle.ink_frames.specs.Saving.{is_after, rise_after};

use crate::frame::{Frame, Header};
use crate::temp_rows::Rows;
use crate::temps::Temps;
use ink_model::{FrameKind, Shared, Text, Value};
use std::alloc::Global;
use std::cmp::Ordering;

impl<P: Copy> Frame<P> {
    /// The frame that has these, and no number of an Enter; none where the temporaries do not rise by name. Takes no memory.
    pub fn of(
        alloc: Global,
        kind: FrameKind,
        place: Option<P>,
        temps: Vec<(Shared<Text>, Value)>,
        evaluating: bool,
        fresh: bool,
        depth: usize,
    ) -> Option<Frame<P>>
        ensures { result ≡ (if rows_rise name_order temps.items
            then Some (record { kind = kind; place = place; temps = temps.items; evaluating = evaluating; fresh = fresh; depth = depth; enter = None })
            else None) }
    {
        let temps = Temps::of(alloc, temps)?;
        Some(Frame {
            header: Header {
                kind,
                evaluating,
                fresh,
                depth,
                place,
                enter: None,
            },
            temps,
        })
    }

    /// The temporaries, in the order of their names.
    pub fn temps(&self) -> &[(Shared<Text>, Value)]
        ensures rows { result.now ≡ self.now.temps }
        ensures rise { rows_rise name_order self.now.temps ≡ true }
    {
        self.temps.rows()
    }
}

impl Temps {
    /// Takes rows; none where they do not rise by name.
    fn of(alloc: Global, rows: Vec<(Shared<Text>, Value)>) -> Option<Temps>
        ensures { result ≡ (if rows_rise name_order rows.items then Some rows.items else None) }
    {
        if rise(rows.as_slice()) {
            Some(Temps {
                rows: Rows::Many(rows),
                alloc,
            })
        } else {
            None
        }
    }

    /// The rows, which rise by name.
    fn rows(&self) -> &[(Shared<Text>, Value)]
        ensures rows { result.now ≡ self.now }
        ensures rise { rows_rise name_order self.now ≡ true }
    {
        self.rows.as_slice()
    }
}

// Whether rows rise by name.
fn rise(rows: &[(Shared<Text>, Value)]) -> bool
    ensures { result ≡ rows_rise name_order rows.now }
{
    each_after(rows)
}

// Whether each row comes after the one before it.
fn each_after(rows: &[(Shared<Text>, Value)]) -> bool
    ensures { result ≡ rise_after None rows.now }
{
    let mut last: Option<&str> = None;
    for row in rows {
        let name = row.0.as_str();
        if !is_after(last, name) {
            return false;
        }
        last = Some(name);
    }
    true
}

fn is_after(last: Option<&str>, name: &str) -> bool
    ensures { result ≡ is_after (option_map (λ n. n.now) last.entry) name.now }
{
    match last {
        Some(last) => matches!(last.cmp(name), Ordering::Less),
        None => true,
    }
}
