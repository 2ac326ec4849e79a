//! Where flow goes among frames and threads (docs/FRAMES.md).

ghost use Rattle.ink_out.specs.Undo.{output_stood};
ghost use Rattle.ink_stack.specs.Undo.{threads_spare, threads_stood};
ghost use Rattle.ink_value.specs.Undo.{stack_stood};
ghost use Rattle.std.specs.Prelude.{◌≡◌, List, None, Some, Ok, Err, false, nat_lt, if◌then◌else◌, option_map, option_and_then, ◌≤◌, ◌+◌, OnOk};
ghost use Rattle.ink_model.specs.Flow.Transfers.{Written, called, depth_of, done, forked, halt, moved_on, reach, returned, void_for};
ghost use Rattle.ink_model.specs.Flow.Frames.{base_threads, is_function, map_threads, place_in};
ghost use Rattle.ink_model.specs.Memory.Refusals.{Gives, leaving};
ghost use Rattle.ink_model.specs.Memory.Moves.{dropped_asks, forked_asks, moved_asks, returned_asks};
ghost use Rattle.ink_model.specs.Text.Output.{is_line};
ghost use Rattle.ink_model.specs.Text.Page.{Page};
ghost use Rattle.ink_model.specs.Run.Place.{next_place};
ghost use Rattle.ink_model.specs.Flow.Threads.{dropped, frame_count, frame_popped};
ghost use Rattle.ink_model.specs.Story.Tree.{StoryTree};
ghost use Rattle.ink_model.specs.declared.frame.FrameKind.TheVariants as kind;
ghost use Rattle.ink_model.specs.declared.limits.TheConstants.{MAX_FRAMES};
ghost use Rattle.ink_model.specs.declared.value.Value.{Value as Data};
ghost use Rattle.ink_stack.specs.Calls.{frame_kind};
ghost use Rattle.ink_moves.specs.declared.flow.StepEnd.TheVariants.{Went};
ghost use Rattle.ink_moves.specs.Reaches.{PassesAs, ReachesAs, off_function, frame_entered, left, left_asks, went, written};
ghost use Rattle.ink_tree.specs.Nodes.{place_of, story_tree};

use ink_model::{Fault, FrameKind, Value};
use ink_out::Output;
use ink_stack::{CallKind, Threads};
use ink_trail::Undo;
use ink_tree::{Spot, Tree};
use ink_value::EvalStack;

/// Room for the changes of threads that a move makes before it makes room again: up to 99 threads end, and flow is put somewhere. The
/// rest is to spare.
pub const MOVING: usize = 108;

/// How a step ended: flow went on, or it has stopped; or a turn function would be called, by a step that is to call none.
#[derive(Clone, Copy)]
pub enum StepEnd {
    Went,
    Stopped,
    WantsCall,
}

impl StepEnd {
    /// Whether flow went on.
    #[inline(always)]
    pub fn went(self) -> bool
        ensures { result ≡ went self }
    {
        matches!(self, StepEnd::Went)
    }
}

/// Flow moves on to the place after the one where it is. Off the end of a function it goes on after the call, and off the end
/// of a thread where the thread below goes on; it stops off the end of the last one. `BadPop` off the end of a function whose
/// frame is the only one; `BadMode` where another number of strings and tags is open than at its call; `TooDeep` for more than
/// 100,000 marks in the line or 10,000 values on the stack; `StopInString` for a stop while a string or a tag is open;
/// `OutOfMemory` for a refused request for memory, which only the end of a function makes.
#[inline(always)]
pub fn move_on(
    tree: &Tree,
    threads: &mut Threads<Spot>,
    stack: &mut EvalStack,
    output: &mut Output,
) -> Result<StepEnd, Fault>
    requires room { MOVING ≤ threads_spare threads.old }
    ensures flow { let s = story_tree tree.now in let ts = map_threads (place_of s) threads.old.threads in let w = written stack.old output.old in
        ReachesAs (moved_asks (next_place s) ts w) (moved_on (next_place s) ts w) (map_threads (place_of s) threads.new.threads) (written stack.new output.new) result }
    ensures threads_mark { threads_stood threads.new ≡ threads_stood threads.old }
    ensures stack_mark { stack_stood stack.new ≡ stack_stood stack.old }
    ensures output_mark { output_stood output.new ≡ output_stood output.old }
    ensures enough { 6 ≤ threads_spare threads.new }
{
    if let Some(place) = next_of(tree, threads) {
        return Ok(land(threads, place));
    }
    move_out(tree, threads, stack, output)
}

/// The same where the place after is known. Takes no memory.
#[inline(always)]
pub fn move_to(tree: &Tree, threads: &mut Threads<Spot>, next: Spot)
    requires next { let s = story_tree tree.now in option_and_then (next_place s) (place_in (map_threads (place_of s) threads.old.threads)) ≡ Some (place_of s next) }
    requires room { 2 ≤ threads_spare threads.old }
    ensures flow { (w : Written) → let s = story_tree tree.now in let ts = map_threads (place_of s) threads.old.threads in
        ReachesAs (moved_asks (next_place s) ts w) (moved_on (next_place s) ts w) (map_threads (place_of s) threads.new.threads) w (Ok Went) }
    ensures mark { threads_stood threads.new ≡ threads_stood threads.old }
    ensures spare { threads_spare threads.old ≤ threads_spare threads.new + 2 }
{
    threads.go(Some(next));
}

/// The same with the ends of frames and threads, of which most moves have none.
#[inline(never)]
fn move_out(
    tree: &Tree,
    threads: &mut Threads<Spot>,
    stack: &mut EvalStack,
    output: &mut Output,
) -> Result<StepEnd, Fault>
    requires room { MOVING ≤ threads_spare threads.old }
    ensures flow { let s = story_tree tree.now in let ts = map_threads (place_of s) threads.old.threads in let w = written stack.old output.old in
        ReachesAs (moved_asks (next_place s) ts w) (moved_on (next_place s) ts w) (map_threads (place_of s) threads.new.threads) (written stack.new output.new) result }
    ensures threads_mark { threads_stood threads.new ≡ threads_stood threads.old }
    ensures stack_mark { stack_stood stack.new ≡ stack_stood stack.old }
    ensures output_mark { output_stood output.new ≡ output_stood output.old }
    ensures enough { 6 ≤ threads_spare threads.new }
{
    loop {
        if let Some(place) = next_of(tree, threads) {
            return Ok(land(threads, place));
        }
        match threads.top().kind() {
            FrameKind::Function => end_function(threads, stack, output)?,
            FrameKind::Base | FrameKind::Tunnel => {
                if threads.is_last() {
                    threads.go(None);
                    return stop(output);
                }
                let _dropped = threads.pop_thread();
            }
        }
    }
}

/// The same where it is known that no place comes after, which is not asked again. Mostly a function ends, and flow goes on after
/// its call.
#[inline(always)]
pub fn move_off(
    tree: &Tree,
    threads: &mut Threads<Spot>,
    stack: &mut EvalStack,
    output: &mut Output,
) -> Result<StepEnd, Fault>
    requires last { let s = story_tree tree.now in option_and_then (next_place s) (place_in (map_threads (place_of s) threads.old.threads)) ≡ None }
    requires room { MOVING ≤ threads_spare threads.old }
    ensures flow { let s = story_tree tree.now in let ts = map_threads (place_of s) threads.old.threads in let w = written stack.old output.old in
        ReachesAs (moved_asks (next_place s) ts w) (moved_on (next_place s) ts w) (map_threads (place_of s) threads.new.threads) (written stack.new output.new) result }
    ensures threads_mark { threads_stood threads.new ≡ threads_stood threads.old }
    ensures stack_mark { stack_stood stack.new ≡ stack_stood stack.old }
    ensures output_mark { output_stood output.new ≡ output_stood output.old }
    ensures enough { 6 ≤ threads_spare threads.new }
{
    match threads.top().kind() {
        FrameKind::Function => {
            end_function(threads, stack, output)?;
            move_on(tree, threads, stack, output)
        }
        FrameKind::Base | FrameKind::Tunnel => move_out(tree, threads, stack, output),
    }
}

/// Flow goes to a place. Takes no memory.
#[inline(always)]
pub fn land(threads: &mut Threads<Spot>, place: Spot) -> StepEnd
    requires room { 2 ≤ threads_spare threads.old }
    ensures flow { (s : StoryTree) (w : Written) → ReachesAs false (reach (place_of s place) (map_threads (place_of s) threads.old.threads) w) (map_threads (place_of s) threads.new.threads) w (Ok result) }
    ensures mark { threads_stood threads.new ≡ threads_stood threads.old }
    ensures spare { threads_spare threads.old ≤ threads_spare threads.new + 2 }
{
    threads.go(Some(place));
    StepEnd::Went
}

/// A frame is pushed where flow is, and flow lands in it; a function has its mark in the text. `TooDeep` where the thread has
/// 1,000 frames, for more than 100,000 marks in the line, and where no number is left for the mark; `OutOfMemory` for a refused
/// request for memory.
#[inline(always)]
pub fn call(
    threads: &mut Threads<Spot>,
    output: &mut Output,
    kind: CallKind,
    place: Spot,
) -> Result<StepEnd, Fault>
    requires room { 4 ≤ threads_spare threads.old }
    ensures flow { (s : StoryTree) (values : List Data) → let ts = map_threads (place_of s) threads.old.threads in let w : Written = record { stack = values; page = output.old.page } in
        ReachesAs (nat_lt (frame_count ts.thread) MAX_FRAMES) (called (frame_kind kind) (place_of s place) ts w) (map_threads (place_of s) threads.new.threads) (record { stack = values; page = output.new.page }) result }
    ensures threads_mark { threads_stood threads.new ≡ threads_stood threads.old }
    ensures output_mark { output_stood output.new ≡ output_stood output.old }
    ensures spare { threads_spare threads.old ≤ threads_spare threads.new + 4 }
{
    threads.push_frame(kind, output.depth())?;
    enter(threads, output, kind)?;
    Ok(land(threads, place))
}

/// A frame of this kind is popped. Flow goes on after its call, or lands at the place that is given, in the frame below: that is
/// `returned` of Flow/Transfers.antt, and by `ReachesAs` threads, stack and page are as it leaves them, the fault is its fault, or
/// it is `OutOfMemory` where memory is asked for. `BadPop` where the top frame is of another kind or the only one, else `BadMode`
/// where another number of strings and tags is open than at its call; the faults of moving on where no place is given; `TooDeep`
/// and `OutOfMemory` at a function's mark.
pub fn return_frame(
    tree: &Tree,
    threads: &mut Threads<Spot>,
    stack: &mut EvalStack,
    output: &mut Output,
    kind: FrameKind,
    to: Option<Spot>,
) -> Result<StepEnd, Fault>
    requires room { MOVING + 2 ≤ threads_spare threads.old }
    ensures flow { let s = story_tree tree.now in let ts = map_threads (place_of s) threads.old.threads in let w = written stack.old output.old in let q = option_map (place_of s) to in
        ReachesAs (returned_asks (next_place s) kind q ts w) (returned (next_place s) kind q ts w) (map_threads (place_of s) threads.new.threads) (written stack.new output.new) result }
    ensures threads_mark { threads_stood threads.new ≡ threads_stood threads.old }
    ensures stack_mark { stack_stood stack.new ≡ stack_stood stack.old }
    ensures output_mark { output_stood output.new ≡ output_stood output.old }
    ensures enough { 5 ≤ threads_spare threads.new }
{
    leave(threads, output, kind)?;
    match to {
        Some(place) => Ok(land(threads, place)),
        None => move_on(tree, threads, stack, output),
    }
}

/// Flow moves on, and then the thread that runs is there twice; where flow stops there is nothing to copy. The faults of moving
/// on; `TooDeep` where there are 100 threads; `OutOfMemory` for a refused request for memory.
#[inline(never)]
pub fn fork(
    tree: &Tree,
    threads: &mut Threads<Spot>,
    stack: &mut EvalStack,
    output: &mut Output,
) -> Result<StepEnd, Fault>
    requires room { MOVING + 2 ≤ threads_spare threads.old }
    ensures flow { let s = story_tree tree.now in let ts = map_threads (place_of s) threads.old.threads in let w = written stack.old output.old in
        ReachesAs (forked_asks (next_place s) ts w) (forked (next_place s) ts w) (map_threads (place_of s) threads.new.threads) (written stack.new output.new) result }
    ensures threads_mark { threads_stood threads.new ≡ threads_stood threads.old }
    ensures stack_mark { stack_stood stack.new ≡ stack_stood stack.old }
    ensures output_mark { output_stood output.new ≡ output_stood output.old }
    ensures enough { 5 ≤ threads_spare threads.new }
{
    let end = move_on(tree, threads, stack, output)?;
    if let StepEnd::Went = end {
        threads.push_thread()?;
    }
    Ok(end)
}

/// The thread that runs is dropped, and the one below moves on, with the faults of moving on. The last thread stops where it is:
/// `StopInString` while a string or a tag is open.
#[inline(never)]
pub fn done(
    tree: &Tree,
    threads: &mut Threads<Spot>,
    stack: &mut EvalStack,
    output: &mut Output,
) -> Result<StepEnd, Fault>
    requires room { MOVING + 2 ≤ threads_spare threads.old }
    ensures flow { let s = story_tree tree.now in let ts = map_threads (place_of s) threads.old.threads in let w = written stack.old output.old in
        ReachesAs (dropped_asks (next_place s) (dropped ts) w) (done (next_place s) ts w) (map_threads (place_of s) threads.new.threads) (written stack.new output.new) result }
    ensures threads_mark { threads_stood threads.new ≡ threads_stood threads.old }
    ensures stack_mark { stack_stood stack.new ≡ stack_stood stack.old }
    ensures output_mark { output_stood output.new ≡ output_stood output.old }
    ensures enough { 6 ≤ threads_spare threads.new }
{
    if threads.pop_thread() {
        return move_on(tree, threads, stack, output);
    }
    threads.put(None);
    stop(output)
}

/// Flow stops, and of where it was nothing is left. `StopInString` while a string or a tag is open. Takes no memory.
#[inline(never)]
pub fn end(threads: &mut Threads<Spot>, output: &Output) -> Result<StepEnd, Fault>
    requires room { 1 ≤ threads_spare threads.old }
    ensures flow { (s : StoryTree) (values : List Data) → let w : Written = record { stack = values; page = output.now.page } in ReachesAs false (halt (base_threads None) w) (map_threads (place_of s) threads.new.threads) w result }
    ensures mark { threads_stood threads.new ≡ threads_stood threads.old }
    ensures spare { threads_spare threads.old ≤ threads_spare threads.new + 1 }
{
    threads.reset();
    stop(output)
}

/// A stop: `StopInString` while a string or a tag is open.
fn stop(output: &Output) -> Result<StepEnd, Fault>
    ensures { result ≡ (if is_line output.now.page.sections then Ok StepEnd.Stopped else Err Fault.StopInString) }
{
    if output.depth() == 0 {
        Ok(StepEnd::Stopped)
    } else {
        Err(Fault::StopInString)
    }
}

/// The place after the one where flow is; none where there is none, or flow has stopped.
#[inline(always)]
pub fn next_of(tree: &Tree, threads: &Threads<Spot>) -> Option<Spot>
    ensures { let s = story_tree tree.now in option_map (place_of s) result ≡ option_and_then (next_place s) (place_in (map_threads (place_of s) threads.now.threads)) }
{
    match threads.place() {
        Some(here) => tree.next(here),
        None => None,
    }
}

/// Off the end of a function: its frame is popped, its mark is written, and void is pushed where the caller evaluates. There is
/// room again to move on.
fn end_function(
    threads: &mut Threads<Spot>,
    stack: &mut EvalStack,
    output: &mut Output,
) -> Result<(), Fault>
    requires room { 1 ≤ threads_spare threads.old }
    ensures flow { (s : StoryTree) → let ts = map_threads (place_of s) threads.old.threads in let w = written stack.old output.old in
        PassesAs (left_asks kind.Function (frame_popped kind.Function (depth_of w) ts.thread) ts.thread.frame w) (off_function ts w) (map_threads (place_of s) threads.new.threads) (written stack.new output.new) result }
    ensures threads_mark { threads_stood threads.new ≡ threads_stood threads.old }
    ensures stack_mark { stack_stood stack.new ≡ stack_stood stack.old }
    ensures output_mark { output_stood output.new ≡ output_stood output.old }
    ensures enough { OnOk result (MOVING ≤ threads_spare threads.new) }
    ensures spare { threads_spare threads.old ≤ threads_spare threads.new + 1 }
{
    leave(threads, output, FrameKind::Function)?;
    threads.ready(MOVING)?;
    push_void(stack, threads.is_evaluating())
}

/// Void for a caller that evaluates.
fn push_void(stack: &mut EvalStack, evaluating: bool) -> Result<(), Fault>
    ensures void { (page : Page) → let w : Written = record { stack = stack.old.items; page = page } in
        Gives (leaving (record w { stack = stack.new.items }) result) (void_for evaluating w) }
    ensures mark { stack_stood stack.new ≡ stack_stood stack.old }
{
    if !evaluating {
        return Ok(());
    }
    stack.push(Value::Void)
}

/// A function that was called has its Enter in the text, and its frame the number of it. `TooDeep` for more than 100,000 marks in
/// the line, and where no number is left; `OutOfMemory` for a refused request for memory.
fn enter(threads: &mut Threads<Spot>, output: &mut Output, kind: CallKind) -> Result<(), Fault>
    requires room { 1 ≤ threads_spare threads.old }
    ensures flow { (s : StoryTree) (values : List Data) → let ts = map_threads (place_of s) threads.old.threads in let w : Written = record { stack = values; page = output.old.page } in
        PassesAs (is_function (frame_kind kind)) (frame_entered (frame_kind kind) ts w) (map_threads (place_of s) threads.new.threads) (record { stack = values; page = output.new.page }) result }
    ensures threads_mark { threads_stood threads.new ≡ threads_stood threads.old }
    ensures output_mark { output_stood output.new ≡ output_stood output.old }
    ensures spare { threads_spare threads.old ≤ threads_spare threads.new + 1 }
{
    match kind {
        CallKind::Function => {
            let number = output.enter()?;
            threads.set_number(number);
            Ok(())
        }
        CallKind::Tunnel => Ok(()),
    }
}

/// Pops a frame of this kind, with the mark where it is a function's. `BadPop` where the top frame is of another kind or the
/// only one, else `BadMode` where another number of strings and tags is open than at its push, else `TooDeep` for more than
/// 100,000 marks in the line, and `OutOfMemory` for a refused request for memory.
#[inline(always)]
fn leave(threads: &mut Threads<Spot>, output: &mut Output, kind: FrameKind) -> Result<(), Fault>
    requires room { 1 ≤ threads_spare threads.old }
    ensures flow { (s : StoryTree) (values : List Data) → let ts = map_threads (place_of s) threads.old.threads in let w : Written = record { stack = values; page = output.old.page } in
        PassesAs (left_asks kind (frame_popped kind (depth_of w) ts.thread) ts.thread.frame w) (left kind ts w) (map_threads (place_of s) threads.new.threads) (record { stack = values; page = output.new.page }) result }
    ensures threads_mark { threads_stood threads.new ≡ threads_stood threads.old }
    ensures output_mark { output_stood output.new ≡ output_stood output.old }
    ensures spare { threads_spare threads.old ≤ threads_spare threads.new + 1 }
{
    let number = threads.top().number();
    threads.pop_frame(kind, output.depth())?;
    match kind {
        FrameKind::Function => output.leave(number),
        FrameKind::Base | FrameKind::Tunnel => Ok(()),
    }
}
