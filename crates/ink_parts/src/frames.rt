//! Frames and threads as JSON values, and as their text.

ghost use Rattle.std.specs.Prelude.{◌≡◌, ◌∷◌, IfOk, OnOk, codes, true, map, option_map, reverse};
ghost use Rattle.json.specs.Token as tokens;
ghost use Rattle.serde_json.specs.Data.{no_members, object};
ghost use Rattle.serde_json.specs.Data as entries;
ghost use Rattle.serde_json.specs.View.{members_view, view};
ghost use Rattle.ink_model.specs.Flow.Frames.{map_frame, map_thread, map_threads};
ghost use Rattle.ink_model.specs.Variables.Rows.{name_order, rows_rise};
ghost use Rattle.ink_model.specs.Save.Spelling.{frame_data, list_data, place_or_null, temps_members, thread_data, threads_data};
ghost use Rattle.ink_parts.specs.Written.{frame_members, put_all};
ghost use Rattle.ink_tokens.specs.Tokens.{Added, data_tokens};
ghost use Rattle.ink_tree.specs.Nodes.{place_of, story_tree};

use crate::members::{add_flag, add_number};
use crate::written::{Written, add_member, put_member, put_pile, write_pile};
use ink_model::{Shared, Text, Value};
use ink_stack::{Frame, Running, Thread, Threads};
use ink_tokens::{put, put_flag, put_number};
use ink_tree::{Spot, Tree};
use json::{Token, Writer};
use serde_json::{Map, Value as Json, put as put_entry};
use std::alloc::{AllocError, Global};

impl Written for Frame<Spot> {
    ghost spelling = { λ s frame. frame_data (map_frame (place_of s) frame) };

    fn write(&self, alloc: Global, tree: &Tree) -> Result<Json, AllocError> {
        let mut members = Map::new(alloc);
        add_frame(alloc, tree, &mut members, self)?;
        Ok(Json::Object(members))
    }

    fn put(&self, alloc: Global, tree: &Tree, out: &mut Writer) -> Result<(), AllocError> {
        put(out, Token::BeginObject)?;
        put_number(out, "depth", self.depth() as u64)?;
        put_flag(out, "eval", self.is_evaluating())?;
        put_flag(out, "fresh", self.is_fresh())?;
        put_member(alloc, tree, out, "kind", &self.kind())?;
        put_member(alloc, tree, out, "place", &self.place())?;
        put_temps(alloc, tree, out, self.temps())?;
        put(out, Token::EndObject)
    }
}

// Puts the members of a frame. The one error is a refused request for memory.
fn add_frame(
    alloc: Global,
    tree: &Tree,
    members: &mut Map<String, Json>,
    frame: &Frame<Spot>,
) -> Result<(), AllocError>
    ensures { OnOk result (members_view members.new.entries ≡ frame_members (map_frame (place_of (story_tree tree.now)) frame.now) (members_view members.old.entries)) }
{
    add_number(alloc, members, "depth", frame.depth() as u64)?;
    add_flag(alloc, members, "eval", frame.is_evaluating())?;
    add_flag(alloc, members, "fresh", frame.is_fresh())?;
    add_member(alloc, tree, members, "kind", &frame.kind())?;
    add_member(alloc, tree, members, "place", &frame.place())?;
    add_temps(alloc, tree, members, frame.temps())
}

// The member with temporaries. The one error is a refused request for memory.
fn put_temps(
    alloc: Global,
    tree: &Tree,
    out: &mut Writer,
    rows: &[(Shared<Text>, Value)],
) -> Result<(), AllocError>
    ensures { OnOk result (Added out.old out.new (tokens.key (codes "temps") ∷ data_tokens (object (temps_members rows.now)))) }
{
    put(out, Token::Key("temps"))?;
    put(out, Token::BeginObject)?;
    for row in rows {
        put_member(alloc, tree, out, row.0.as_str(), &row.1)?;
    }
    put(out, Token::EndObject)
}

// Puts the member with temporaries, which rise by name. The one error is a refused request for memory.
fn add_temps(
    alloc: Global,
    tree: &Tree,
    members: &mut Map<String, Json>,
    rows: &[(Shared<Text>, Value)],
) -> Result<(), AllocError>
    requires { rows_rise name_order rows.now ≡ true }
    ensures { OnOk result (members_view members.new.entries ≡ entries.put (codes "temps") (object (temps_members rows.now)) (members_view members.old.entries)) }
{
    let temps = put_rows(alloc, tree, rows)?;
    put_entry(members, alloc, "temps", Json::Object(temps))
}

// The members that rows are, put one by one. The one error is a refused request for memory.
fn put_rows(
    alloc: Global,
    tree: &Tree,
    rows: &[(Shared<Text>, Value)],
) -> Result<Map<String, Json>, AllocError>
    ensures { IfOk result (λ members. members_view members.entries ≡ put_all no_members rows.now) }
{
    let mut members = Map::new(alloc);
    for row in rows {
        let value = row.1.write(alloc, tree)?;
        put_entry(&mut members, alloc, row.0.as_str(), value)?;
    }
    Ok(members)
}

impl Written for Thread<Spot> {
    ghost spelling = { λ s thread. thread_data (map_thread (place_of s) thread) };

    fn write(&self, alloc: Global, tree: &Tree) -> Result<Json, AllocError> {
        let below = self.below(alloc)?;
        write_thread(alloc, tree, below.as_slice(), self.top(), self.previous())
    }

    fn put(&self, alloc: Global, tree: &Tree, out: &mut Writer) -> Result<(), AllocError> {
        let below = self.below(alloc)?;
        put_thread(
            alloc,
            tree,
            out,
            below.as_slice(),
            self.top(),
            self.previous(),
        )
    }
}

impl Written for Running<Spot> {
    ghost spelling = { λ s running. thread_data (map_thread (place_of s) running.thread) };

    fn write(&self, alloc: Global, tree: &Tree) -> Result<Json, AllocError> {
        let below = self.below(alloc)?;
        write_thread(alloc, tree, below.as_slice(), self.top(), self.previous())
    }

    fn put(&self, alloc: Global, tree: &Tree, out: &mut Writer) -> Result<(), AllocError> {
        let below = self.below(alloc)?;
        put_thread(
            alloc,
            tree,
            out,
            below.as_slice(),
            self.top(),
            self.previous(),
        )
    }
}

// A thread of these frames, the bottom one first and then the top one. The one error is a refused request for memory.
fn write_thread(
    alloc: Global,
    tree: &Tree,
    below: &[Frame<Spot>],
    top: &Frame<Spot>,
    previous: Option<Spot>,
) -> Result<Json, AllocError>
    ensures { let p = place_of (story_tree tree.now) in
        IfOk result (λ json. view json ≡ thread_data (map_thread p (record { frame = top.now; below = reverse below.now; previous = previous }))) }
{
    let mut members = Map::new(alloc);
    add_thread(alloc, tree, &mut members, below, top, previous)?;
    Ok(Json::Object(members))
}

// Puts the members of a thread. The one error is a refused request for memory.
fn add_thread(
    alloc: Global,
    tree: &Tree,
    members: &mut Map<String, Json>,
    below: &[Frame<Spot>],
    top: &Frame<Spot>,
    previous: Option<Spot>,
) -> Result<(), AllocError>
    ensures { let p = place_of (story_tree tree.now) in
        let frames = list_data frame_data (reverse (map_frame p top.now ∷ map (map_frame p) (reverse below.now))) in
        OnOk result (members_view members.new.entries ≡ entries.put (codes "previous") (place_or_null (option_map p previous)) (entries.put (codes "frames") frames (members_view members.old.entries))) }
{
    let frames = write_frames(alloc, tree, below, top)?;
    put_entry(members, alloc, "frames", frames)?;
    add_member(alloc, tree, members, "previous", &previous)
}

// The same as tokens.
fn put_thread(
    alloc: Global,
    tree: &Tree,
    out: &mut Writer,
    below: &[Frame<Spot>],
    top: &Frame<Spot>,
    previous: Option<Spot>,
) -> Result<(), AllocError>
    ensures { let p = place_of (story_tree tree.now) in
        OnOk result (Added out.old out.new (data_tokens (thread_data (map_thread p (record { frame = top.now; below = reverse below.now; previous = previous }))))) }
{
    put(out, Token::BeginObject)?;
    put_frames(alloc, tree, out, below, top)?;
    put_member(alloc, tree, out, "previous", &previous)?;
    put(out, Token::EndObject)
}

// The member with these frames, the bottom one first and then the top one. The one error is a refused request for memory.
fn put_frames(
    alloc: Global,
    tree: &Tree,
    out: &mut Writer,
    below: &[Frame<Spot>],
    top: &Frame<Spot>,
) -> Result<(), AllocError>
    ensures { let p = place_of (story_tree tree.now) in
        OnOk result (Added out.old out.new (tokens.key (codes "frames") ∷ data_tokens (list_data frame_data (reverse (map_frame p top.now ∷ map (map_frame p) (reverse below.now)))))) }
{
    put(out, Token::Key("frames"))?;
    put_pile(alloc, tree, out, below, top)
}

// These frames, the bottom one first and then the top one. The one error is a refused request for memory.
fn write_frames(
    alloc: Global,
    tree: &Tree,
    below: &[Frame<Spot>],
    top: &Frame<Spot>,
) -> Result<Json, AllocError>
    ensures { let p = place_of (story_tree tree.now) in
        IfOk result (λ json. view json ≡ list_data frame_data (reverse (map_frame p top.now ∷ map (map_frame p) (reverse below.now)))) }
{
    write_pile(alloc, tree, below, top)
}

/// Threads, the bottom one first.
impl Written for Threads<Spot> {
    ghost spelling = { λ s threads. threads_data (map_threads (place_of s) threads.threads) };

    fn write(&self, alloc: Global, tree: &Tree) -> Result<Json, AllocError> {
        write_pile(alloc, tree, self.below(), self.top())
    }

    fn put(&self, alloc: Global, tree: &Tree, out: &mut Writer) -> Result<(), AllocError> {
        put_pile(alloc, tree, out, self.below(), self.top())
    }
}
