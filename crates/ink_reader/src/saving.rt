//! Keeping and fetching a save.

ghost use Rattle.std.specs.Prelude.{◌≡◌, ◌⊎◌, ℕ, List, Option, Result, Ok, Some, IfErr, IfOk, MatchResult, OnOk, if◌then◌else◌, is_ok};
ghost use Rattle.std.specs.Io.KnownBytes.{Appends};
ghost use Rattle.serde_json.specs.Read.{read as read_text};
ghost use Rattle.serde_json.specs.View.{view};
ghost use Rattle.ink_page.specs.Showing.{FailsToShow};
ghost use Rattle.ink_protocol.specs.Ends.{Reports, writes_fail};
ghost use Rattle.ink_reader.specs.Course.{IsUnread, unsaved_told};
ghost use Rattle.ink_reader.specs.Deeds.{deeds_shown};
ghost use Rattle.ink_reader.specs.Kept.{Fetches, KeepsSave};
ghost use Rattle.ink_reader.specs.Steps.{IsMissing};
ghost use Rattle.ink_reader.specs.Notices.{BadSave, Refused, Word, word_text};
ghost use Rattle.ink_reader.specs.declared.shelf.NotKept.{NotKept};

use crate::shelf::{NO_SAVE, Shelf};
use ink_model::{Refusal, Text};
use ink_page::{Look, refusal_words, say};
use ink_protocol::{RunFault, Sink};
use serde_json::Value as Json;
use std::alloc::Global;

/// Keeps a save, and tells whether it is kept; where it is not, it says why.
pub(crate) fn keep_save<T: Sink, S: Shelf>(
    alloc: Global,
    look: Look,
    sink: &mut T,
    shelf: &mut S,
    save: &Text,
) -> Result<bool, RunFault>
    ensures answers { (answer : Result (Unit {0}) NotKept) × KeepsSave (S.kept shelf.old) (S.kept shelf.new) save.now answer × IfOk result (λ kept. kept ≡ is_ok answer)
        × OnOk result (Appends (T.contents sink.old) (T.contents sink.new) (deeds_shown look (unsaved_told answer))) }
    ensures keeps { (S.kept shelf.new ≡ S.kept shelf.old) ⊎ (S.kept shelf.new ≡ Some (Some save.now)) }
    ensures sink { Reports (writes_fail result) (T.failures sink.old) (T.failures sink.new) (T.name sink.old) (T.name sink.new) }
    ensures fault { IfErr result FailsToShow }
{
    match shelf.keep(save.as_str()) {
        Ok(()) => Ok(true),
        Err(cause) => {
            say(alloc, look, sink, cause.unwritten())?;
            Ok(false)
        }
    }
}

/// The save that is kept, or words that say why there is none that is JSON.
pub(crate) fn fetch_save<S: Shelf>(alloc: Global, shelf: &S) -> Result<Json, &'static str>
    ensures { MatchResult result
        (λ json. (text : List ℕ) × Fetches {E = NotKept} (S.kept shelf.now) (Ok (Some text)) × (read_text text ≡ Some (view json)))
        (λ words. (answer : Result (Option (List ℕ)) NotKept) × (word : Word) × Fetches (S.kept shelf.now) answer × IsMissing answer word × (words.now ≡ word_text word)) }
{
    match shelf.fetch(alloc) {
        Ok(Some(save)) => read_save(alloc, save.as_str()),
        Ok(None) => Err("There is no save."),
        Err(cause) => Err(cause.unread()),
    }
}

/// A save's text as JSON, or words that say why it is none.
pub(crate) fn read_save(alloc: Global, save: &str) -> Result<Json, &'static str>
    ensures { MatchResult result (λ json. read_text save.now ≡ Some (view json)) (λ words. (word : Word) × IsUnread save.now word × (words.now ≡ word_text word)) }
{
    match Json::from_str(alloc, save) {
        Ok(json) => Ok(json),
        Err(error) => Err(unread_words(error.is_memory())),
    }
}

// Why a text gives no JSON: there was no memory, or it is none.
fn unread_words(lacks: bool) -> &'static str
    ensures { result.now ≡ word_text (if lacks then Refused Refusal.OutOfMemory else BadSave) }
{
    if lacks {
        return refusal_words(Refusal::OutOfMemory);
    }
    NO_SAVE
}
