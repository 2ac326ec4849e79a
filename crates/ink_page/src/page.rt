//! The pages of a reading: lines of a story with their tags, and choices by their numbers (docs/READER.md, "What is shown"). The
//! one error is a refused request for memory.

ghost use Rattle.std.specs.Prelude.{◌≡◌, OnOk, IfOk, IsUtf8, length, string_bytes};
ghost use Rattle.ink_page.specs.Lines.{AreTexts, IsPage};
ghost use Rattle.ink_page.specs.Page.{choice_page, lead_of, line_page, tag_laid, tagged, tags_laid};

use crate::sheet::Sheet;
use ink_model::{Shared, Shown, Text};
use std::alloc::{AllocError, Global};

/// How pages look: in how many columns, whether a line's tags are shown, and whether tags are dimmed.
#[derive(Clone, Copy)]
pub struct Look {
    pub columns: u16,
    pub tags: bool,
    pub dims: bool,
}

/// A line of a story, with its tags behind it where they are shown.
pub fn line_page(
    alloc: Global,
    look: Look,
    text: &str,
    tags: &[Shared<Text>],
) -> Result<String, AllocError>
    ensures page { IfOk result (λ page. string_bytes page ≡ line_page look text.now tags.now) }
    ensures lines { IfOk result (λ page. IsPage look.dims look.columns 0 (string_bytes page)) }
{
    let mut sheet = Sheet::new(alloc, look.columns, "", 0)?;
    sheet.show(text)?;
    if look.tags {
        show_tags(&mut sheet, look, tags)?;
    }
    sheet.end()
}

/// A choice by its number, with its tags behind it: they may tell what it stands for.
pub fn choice_page(
    alloc: Global,
    look: Look,
    number: u32,
    choice: &Shown,
) -> Result<String, AllocError>
    ensures page { IfOk result (λ page. string_bytes page ≡ choice_page look number choice.now) }
    ensures lines { IfOk result (λ page. IsPage look.dims look.columns (length (lead_of number)) (string_bytes page)) }
{
    let lead = format!(in alloc; "{number}. ")?;
    let margin = lead.as_str().len() as u16;
    let mut sheet = Sheet::new(alloc, look.columns, lead.as_str(), margin)?;
    sheet.show(choice.text.as_str())?;
    show_tags(&mut sheet, look, choice.tags.as_slice())?;
    sheet.end()
}

// Shows tags, dimmed, behind what was shown.
fn show_tags(sheet: &mut Sheet, look: Look, tags: &[Shared<Text>]) -> Result<(), AllocError>
    ensures shows { OnOk result (sheet.new ≡ tagged look tags.now sheet.old) }
    ensures texts { OnOk result (AreTexts tags.now) }
{
    if tags.is_empty() {
        return Ok(());
    }
    if look.dims {
        sheet.dim()?;
    }
    put_tags(sheet, tags)?;
    if look.dims {
        sheet.undim()?;
    }
    Ok(())
}

// Shows tags, each behind a mark.
fn put_tags(sheet: &mut Sheet, tags: &[Shared<Text>]) -> Result<(), AllocError>
    ensures shows { OnOk result (sheet.new ≡ tags_laid tags.now sheet.old) }
    ensures texts { OnOk result (AreTexts tags.now) }
{
    for tag in tags {
        put_tag(sheet, tag.as_str())?;
    }
    Ok(())
}

fn put_tag(sheet: &mut Sheet, tag: &str) -> Result<(), AllocError>
    ensures shows { OnOk result (sheet.new ≡ tag_laid tag.now sheet.old) }
    ensures text { IsUtf8 tag.now }
{
    sheet.show(" # ")?;
    sheet.show(tag)
}
