//! The frames below the top one of a thread.

ghost use Rattle.std.specs.Prelude.{◌≡◌, ◌≢◌, [], ◌∷◌, ◌++◌, ◌<◌, ◌≤◌, ◌+◌, ◌-◌, None, true, drop, get_or, length, map, option_map, replicate, reverse, set, take, vec_capacity, IfOk, OnOk, OnErr, MatchOption};
ghost use Rattle.std.specs.Bool.{OnTrue, OnFalse};
ghost use Rattle.ink_model.specs.Flow.Frames.{FrameOf, is_function, unnumbered_frame};
ghost use Rattle.ink_model.specs.Variables.Rows.{name_order, row};
ghost use Rattle.ink_model.specs.Flow.Threads.{stale, with_row_in};
ghost use Rattle.ink_frames.specs.Cells.{temp_back, with_fresh};
ghost use Rattle.ink_frames.specs.Frames.{FitsIn, MoreRoom, frame_with, unnumbered};
ghost use Rattle.ink_frames.specs.Quiet.{Covers, Settled};
ghost use Rattle.ink_frames.specs.Temps.{text_of};

use crate::frame::{Frame, Header};
use crate::lowest::Lowest;
use crate::spare::{Spare, end_temps, list_for};
use crate::temps::{TempName, Temps};
use ink_model::Value;
use std::alloc::{AllocError, Global};
use std::marker::Model;
use std::mem;

/// So many headers a copy may copy; where more are not shared yet, all are shared before the copy is made.
const FEW: usize = 16;

/// Frames, the bottom one first: their headers, and the temporaries of the lowest ones, up to the last that has any or further. So
/// frames without temporaries are copied as a whole, and are let go without a look. The lowest headers may be shared with copies of
/// the list; `headers` are the others, and have room for all, so that headers that are shared become the list's own without memory
/// before one is changed. A contract sees the frames, how many fit without memory, and how many of these with temporaries.
pub struct Frames<P> {
    pub(crate) lowest: Lowest<P>,
    pub(crate) headers: Vec<Header<P>>,
    pub(crate) temps: Vec<Temps>,
    pub(crate) alloc: Global,
}

impl<P: Drop> Drop for Frames<P> {
    fn drop(self) {
        let Frames {
            lowest: _,
            headers: _,
            temps,
            alloc: _,
        } = self;
        end_temps(temps);
    }
}

impl<P> Model for Frames<P> {
    ghost use Rattle.std.specs.Prelude.{◌≤◌, ◌++◌, length, vec_capacity};
    ghost use Rattle.ink_frames.specs.Frames.{FramesView, framed};

    ghost Value = { FramesView P };

    ghost view = { λ f. record { items = framed (f.lowest ++ f.headers.items) f.temps.items; room = record { frames = vec_capacity f.headers; temps = vec_capacity f.temps } } };

    ghost invariant = { λ f. (length f.temps.items ≤ length (f.lowest ++ f.headers.items)) × (length (f.lowest ++ f.headers.items) ≤ vec_capacity f.headers) };
}

impl<P: Copy> Frames<P> {
    /// No frame, which takes no memory.
    pub fn new(alloc: Global) -> Frames<P>
        ensures { result.items ≡ [] }
    {
        Frames {
            lowest: Lowest::new(),
            headers: Vec::new(alloc),
            temps: Vec::new(alloc),
            alloc,
        }
    }

    /// How many there are.
    pub fn len(&self) -> usize
        ensures { result ≡ length self.now.items }
    {
        self.lowest.len() + self.headers.len()
    }

    /// Does nothing; by its contract the frames fit in their room.
    #[inline(always)]
    pub fn within(&self)
        ensures { FitsIn self.now.room (reverse self.now.items) }
    {
        let _ = &self.headers;
    }

    /// A copy, in the memory of spare lists where these are large enough. The one error is a refused request for memory.
    #[inline(always)]
    pub fn clone_over(&self, alloc: Global, spare: &mut Spare<P>) -> Result<Frames<P>, AllocError>
        ensures copy { IfOk result (λ copy. copy.items ≡ self.now.items) }
        ensures memory { OnErr result (self.now.items ≢ []) }
    {
        if self.len() == 0 {
            return Ok(Frames::new(alloc));
        }
        let mut headers = list_for(alloc, &mut spare.headers, self.len())?;
        extend(&mut headers, self.headers.as_slice())?;
        let lowest = self.lowest.share()?;
        let temps = copied(alloc, self.temps.as_slice(), &mut spare.temps)?;
        Ok(Frames {
            lowest,
            headers,
            temps,
            alloc,
        })
    }

    /// Where many headers are not shared yet, copies share all from now on. It asks for memory only to make copies cheap: where that
    /// is refused, copies copy.
    #[inline(always)]
    pub fn freeze(&mut self)
        ensures { self.new ≡ self.old }
    {
        if self.headers.len() > FEW {
            freeze(self.alloc, &mut self.lowest, &mut self.headers);
        }
    }

    /// Whether there is no list, as where there never was a frame: then nothing is let go with it.
    #[inline(always)]
    pub fn owns_nothing(&self) -> bool
        ensures { OnTrue result (self.now.items ≡ []) }
    {
        if self.headers.capacity() == 0 && self.temps.capacity() == 0 {
            return self.lowest.is_unshared();
        }
        false
    }

    /// The header of the frame at an index.
    #[inline(always)]
    pub(crate) fn header_at(&self, index: usize) -> Header<P>
        requires { index < length self.now.items }
        ensures { (d : FrameOf P) → get_or self.now.items index d ≡ frame_with result (get_or self.now.items index d).temps }
    {
        let below = self.lowest.len();
        if index < below {
            return self.lowest.header(index);
        }
        self.headers[index - below]
    }

    /// Whether the frame at an index is a function.
    pub fn is_function(&self, index: usize) -> bool
        requires { index < length self.now.items }
        ensures { (d : FrameOf P) → result ≡ is_function (get_or self.now.items index d).kind }
    {
        self.header_at(index).is_function()
    }

    /// The number of sections that holds with the frame at an index nearest, by the one that holds below it.
    pub fn quiet_above(&self, index: usize, quiet: Option<usize>) -> Option<usize>
        requires { index < length self.now.items }
        ensures { (d : FrameOf P) → Covers quiet (get_or self.now.items index d) result }
    {
        self.header_at(index).quiet_above(quiet)
    }

    /// The value of a temporary of the frame at an index, none where it has none of that name. Takes no memory.
    pub fn temp(&self, index: usize, name: &str) -> Option<&Value>
        requires { index < length self.now.items }
        ensures { (d : FrameOf P) → option_map (λ value. value.now) result ≡ row name_order name.now (get_or self.now.items index d).temps }
    {
        match self.temps.get(index) {
            Some(temps) => temps.get(name),
            None => None,
        }
    }

    /// A text is written where so many sections are open: the frame at an index is fresh no more if it was pushed there. Whether it
    /// was fresh until then.
    pub fn end_one(&mut self, index: usize, depth: usize) -> bool
        requires { index < length self.old.items }
        ensures items { (d : FrameOf P) → self.new.items ≡ set self.old.items index (stale depth (get_or self.old.items index d)) }
        ensures room { self.new.room ≡ self.old.room }
        ensures ended { (d : FrameOf P) → OnTrue result (with_fresh true (stale depth (get_or self.old.items index d)) ≡ get_or self.old.items index d) }
        ensures kept { (d : FrameOf P) → OnFalse result (stale depth (get_or self.old.items index d) ≡ get_or self.old.items index d) }
    {
        let mut header = self.header_at(index);
        if !header.end_one(depth) {
            return false;
        }
        let own = own_index(&mut self.lowest, &mut self.headers, index);
        self.headers[own] = header;
        true
    }

    /// The frame at an index is fresh again.
    pub fn freshen(&mut self, index: usize)
        requires { index < length self.old.items }
        ensures items { (d : FrameOf P) → self.new.items ≡ set self.old.items index (with_fresh true (get_or self.old.items index d)) }
        ensures room { self.new.room ≡ self.old.room }
    {
        let own = own_index(&mut self.lowest, &mut self.headers, index);
        self.headers[own].fresh = true;
    }

    /// The row at an index of the temporaries of a frame holds what it held; where that was nothing it goes. Takes no memory.
    pub fn put_temp_back(&mut self, index: usize, row: usize, was: Option<Value>)
        requires { index < length self.old.items }
        ensures items { (d : FrameOf P) → self.new.items ≡ set self.old.items index (temp_back row was (get_or self.old.items index d)) }
        ensures room { self.new.room ≡ self.old.room }
    {
        if index < self.temps.len() {
            self.temps[index].put_back(row, was);
        }
    }

    /// Gives a temporary of the frame at an index a value, and answers the index of its row and what that held; none where it is
    /// new. The one error is a refused request for memory, which is made only for a new name, and leaves all as it was.
    #[inline(never)]
    pub fn set_temp(
        &mut self,
        index: usize,
        name: TempName<'_>,
        value: Value,
    ) -> Result<(usize, Option<Value>), AllocError>
        requires { index < length self.old.items }
        ensures ok { (d : FrameOf P) → OnOk result (self.new.items ≡ set self.old.items index (with_row_in (text_of name.entry) value (get_or self.old.items index d))) }
        ensures err { OnErr result (self.new.items ≡ self.old.items) }
        ensures memory { (d : FrameOf P) → OnErr result (row name_order (text_of name.entry) (get_or self.old.items index d).temps ≡ None) }
        ensures back { (d : FrameOf P) → IfOk result (λ was. temp_back was.0 was.1 (get_or self.new.items index d) ≡ get_or self.old.items index d) }
        ensures room { MoreRoom self.old.room self.new.room }
    {
        fill_up(self.alloc, &mut self.temps, index + 1)?;
        self.temps[index].set(name, value)
    }

    /// Makes room for this frame above the others, where there is none yet. The one error is a refused request for memory, and leaves
    /// all as it was.
    pub fn make_room(&mut self, frame: &Frame<P>) -> Result<(), AllocError>
        ensures items { self.new.items ≡ self.old.items }
        ensures more { MoreRoom self.old.room self.new.room }
        ensures ok { OnOk result (FitsIn self.new.room (frame.now ∷ reverse self.old.items)) }
    {
        let count = self.len();
        self.headers.reserve(self.lowest.len() + 1)?;
        if !frame.is_bare() {
            self.temps.reserve(count - self.temps.len() + 1)?;
        }
        Ok(())
    }

    /// One frame more, for which there is room.
    pub fn push_reserved(&mut self, frame: Frame<P>)
        requires { FitsIn self.old.room (frame ∷ reverse self.old.items) }
        ensures items { self.new.items ≡ self.old.items ++ frame ∷ [] }
        ensures room { self.new.room ≡ self.old.room }
    {
        let mut frame = frame;
        self.push_from(&mut frame);
    }

    /// The same of a frame that is left without its temporaries.
    #[inline(always)]
    pub fn push_from(&mut self, frame: &mut Frame<P>)
        requires { FitsIn self.old.room (frame.old ∷ reverse self.old.items) }
        ensures items { self.new.items ≡ self.old.items ++ frame.old ∷ [] }
        ensures room { self.new.room ≡ self.old.room }
        ensures frame { frame.new ≡ record frame.old { temps = [] } }
    {
        if frame.is_bare() {
            self.headers.push_reserved(frame.header);
            return;
        }
        let index = self.len();
        put_last(self.alloc, &mut self.temps, index, &mut frame.temps);
        self.headers.push_reserved(frame.header);
    }

    /// Takes the last frame out, where there is one.
    pub fn pop(&mut self) -> Option<Frame<P>>
        ensures items { MatchOption result ((self.old.items ≡ []) × (self.new ≡ self.old)) (λ frame. self.old.items ≡ self.new.items ++ frame ∷ []) }
        ensures room { self.new.room ≡ self.old.room }
    {
        let header = pop_header(&mut self.lowest, &mut self.headers)?;
        let index = self.lowest.len() + self.headers.len();
        let temps = take_last(self.alloc, &mut self.temps, index);
        Some(Frame { header, temps })
    }

    /// Takes the last frame out, which is there, and puts it in the place of another.
    #[inline(always)]
    pub fn pop_into(&mut self, frame: &mut Frame<P>)
        requires { self.old.items ≢ [] }
        ensures items { self.old.items ≡ self.new.items ++ frame.new ∷ [] }
        ensures room { self.new.room ≡ self.old.room }
    {
        if let Some(header) = pop_header(&mut self.lowest, &mut self.headers) {
            let index = self.lowest.len() + self.headers.len();
            take_last_into(&mut self.temps, index, &mut frame.temps);
            frame.header = header;
        }
    }

    /// The frames go, and their lists become spare ones where they are larger.
    #[inline(always)]
    pub fn give_lists(self, spare: &mut Spare<P>)
        ensures { MoreRoom spare.old spare.new }
    {
        let Frames {
            lowest: _,
            headers,
            temps,
            alloc: _,
        } = self;
        spare.keep(headers, temps);
    }

    /// No frame has the number of its Enter any more, of which so many, the lowest ones, do not have it.
    pub fn clear_numbers(&mut self, settled: usize)
        requires { Settled settled self.old.items }
        ensures items { self.new.items ≡ map unnumbered_frame self.old.items }
        ensures room { self.new.room ≡ self.old.room }
    {
        let shared = self.lowest.len();
        if settled < shared {
            self.lowest.clear_numbers();
            clear_numbers_of(self.headers.as_mut_slice());
        } else {
            clear_numbers_from(self.headers.as_mut_slice(), settled - shared);
        }
    }
}

/// All headers are shared from now on; nothing changes where memory is refused.
#[cold]
#[inline(never)]
fn freeze<P: Copy>(alloc: Global, lowest: &mut Lowest<P>, others: &mut Vec<Header<P>>)
    ensures all { lowest.new ++ others.new.items ≡ lowest.old ++ others.old.items }
    ensures room { vec_capacity others.new ≡ vec_capacity others.old }
{
    if let Ok(all) = lowest.extended(alloc, others.as_slice()) {
        *lowest = all;
        others.clear();
    }
}

/// The index of a header among those that are not shared; where it is shared, none is from now on.
#[inline(always)]
fn own_index<P: Copy>(lowest: &mut Lowest<P>, headers: &mut Vec<Header<P>>, index: usize) -> usize
    requires { length (lowest.old ++ headers.old.items) ≤ vec_capacity headers.old }
    ensures all { lowest.new ++ headers.new.items ≡ lowest.old ++ headers.old.items }
    ensures index { length lowest.new + result ≡ index }
    ensures room { vec_capacity headers.new ≡ vec_capacity headers.old }
{
    let below = lowest.len();
    if index < below {
        lowest.thaw(headers);
        return index;
    }
    index - below
}

/// Puts copies of headers behind others. The one error is a refused request for memory. Where there are none, as where all are shared,
/// nothing is called.
#[inline(always)]
fn extend<P: Copy>(headers: &mut Vec<Header<P>>, more: &[Header<P>]) -> Result<(), AllocError>
    ensures items { OnOk result (headers.new.items ≡ headers.old.items ++ more.now) }
    ensures room { vec_capacity headers.old ≤ vec_capacity headers.new }
{
    if more.is_empty() {
        return Ok(());
    }
    headers.extend_from_slice(more)
}

/// Takes the last header out, where there is one.
#[inline(always)]
fn pop_header<P: Copy>(lowest: &mut Lowest<P>, headers: &mut Vec<Header<P>>) -> Option<Header<P>>
    ensures all { MatchOption result ((lowest.old ++ headers.old.items ≡ []) × (lowest.new ++ headers.new.items ≡ [])) (λ header. lowest.old ++ headers.old.items ≡ (lowest.new ++ headers.new.items) ++ header ∷ []) }
    ensures room { vec_capacity headers.new ≡ vec_capacity headers.old }
{
    match headers.pop() {
        Some(header) => Some(header),
        None => lowest.pop(),
    }
}

/// Of the headers from an index on none has the number of its Enter any more.
fn clear_numbers_from<P: Copy>(headers: &mut [Header<P>], from: usize)
    requires { from ≤ length headers.old }
    ensures { headers.new ≡ take from headers.old ++ map unnumbered (drop from headers.old) }
{
    clear_numbers_of(&mut headers[from..]);
}

/// No header has the number of its Enter any more.
fn clear_numbers_of<P: Copy>(headers: &mut [Header<P>])
    ensures { headers.new ≡ map unnumbered headers.old }
{
    for header in headers {
        header.enter = None;
    }
}

/// Takes out the temporaries of the frame at an index, which is the last; where none are kept there, it has none.
fn take_last(alloc: Global, temps: &mut Vec<Temps>, index: usize) -> Temps
    requires { length temps.old.items ≤ index + 1 }
    ensures taken { length temps.old.items ≡ index + 1 → temps.old.items ≡ temps.new.items ++ result ∷ [] }
    ensures none { length temps.old.items ≤ index → (temps.new.items ≡ temps.old.items) × (result ≡ []) }
    ensures few { length temps.new.items ≤ index }
    ensures room { vec_capacity temps.new ≡ vec_capacity temps.old }
{
    if temps.len() <= index {
        return Temps::new(alloc);
    }
    match temps.pop() {
        Some(last) => last,
        None => Temps::new(alloc),
    }
}

/// The same, in the place of other temporaries.
#[inline(always)]
fn take_last_into(temps: &mut Vec<Temps>, index: usize, own: &mut Temps)
    requires { length temps.old.items ≤ index + 1 }
    ensures taken { length temps.old.items ≡ index + 1 → temps.old.items ≡ temps.new.items ++ own.new ∷ [] }
    ensures none { length temps.old.items ≤ index → (temps.new.items ≡ temps.old.items) × (own.new ≡ []) }
    ensures few { length temps.new.items ≤ index }
    ensures room { vec_capacity temps.new ≡ vec_capacity temps.old }
{
    if index >= temps.len() {
        own.clear();
        return;
    }
    if let Some(last) = temps.pop() {
        *own = last;
    }
}

/// Temporaries of the frame at an index come last, and are taken from where they are; frames below it of which none are kept have
/// none. There is room for them.
#[inline(never)]
fn put_last(alloc: Global, temps: &mut Vec<Temps>, index: usize, own: &mut Temps)
    requires below { length temps.old.items ≤ index }
    requires room { index < vec_capacity temps.old }
    ensures items { temps.new.items ≡ temps.old.items ++ replicate (index - length temps.old.items) [] ++ own.old ∷ [] }
    ensures own { own.new ≡ [] }
    ensures room { vec_capacity temps.new ≡ vec_capacity temps.old }
{
    let missing = index - temps.len();
    fill(alloc, temps, missing);
    temps.push_reserved(mem::replace(own, Temps::new(alloc)));
}

/// Makes the list at least so long: where it is shorter, temporaries of frames that have none are put behind it. The one error is a
/// refused request for memory, and leaves all as it was.
fn fill_up(alloc: Global, temps: &mut Vec<Temps>, len: usize) -> Result<(), AllocError>
    ensures ok { OnOk result (temps.new.items ≡ temps.old.items ++ replicate (len - length temps.old.items) []) }
    ensures err { OnErr result (temps.new.items ≡ temps.old.items) }
    ensures memory { OnErr result (length temps.old.items < len) }
    ensures room { vec_capacity temps.old ≤ vec_capacity temps.new }
{
    let missing = len.saturating_sub(temps.len());
    temps.reserve(missing)?;
    fill(alloc, temps, missing);
    Ok(())
}

/// Puts temporaries of so many frames that have none behind the others; there is room for them.
fn fill(alloc: Global, temps: &mut Vec<Temps>, count: usize)
    requires { length temps.old.items + count ≤ vec_capacity temps.old }
    ensures items { temps.new.items ≡ temps.old.items ++ replicate count [] }
    ensures room { vec_capacity temps.new ≡ vec_capacity temps.old }
{
    let mut left = count;
    while left > 0 {
        left -= 1;
        temps.push_reserved(Temps::new(alloc));
    }
}

/// Copies of temporaries, in the memory of a spare list where that is large enough. The one error is a refused request for memory,
/// which none never make.
#[inline(always)]
fn copied(alloc: Global, temps: &[Temps], spare: &mut Vec<Temps>) -> Result<Vec<Temps>, AllocError>
    ensures copy { IfOk result (λ copies. copies.items ≡ temps.now) }
    ensures memory { OnErr result (temps.now ≢ []) }
{
    if temps.is_empty() {
        return Ok(Vec::new(alloc));
    }
    let Ok(list) = list_for(alloc, spare, temps.len()) else {
        return Err(AllocError);
    };
    each_copied(alloc, temps, list)
}

/// The same of some, in a list without items that has room for them. It is a call of its own, so that where there are none nothing is
/// called.
#[inline(never)]
fn each_copied(alloc: Global, temps: &[Temps], list: Vec<Temps>) -> Result<Vec<Temps>, AllocError>
    requires none { list.items ≡ [] }
    requires room { length temps.now ≤ vec_capacity list }
    ensures { IfOk result (λ copies. copies.items ≡ temps.now) }
{
    let mut copies = list;
    for own in temps {
        let Ok(copy) = own.clone_in(alloc) else {
            return Err(AllocError);
        };
        copies.push_reserved(copy);
    }
    Ok(copies)
}
