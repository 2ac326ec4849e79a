//! A whole text of JSON as one flat list, in few bytes for each token.

ghost use Rattle.std.specs.Prelude.{◌≡◌, ◌≢◌, ◌<◌, ◌^◌, ◌+◌, ◌++◌, ◌∷◌, [], true, false, ℕ, List, length, drop, get_or, slice_set, Some, None, Err, IfOk, IfSome, OnOk, OnErr, IsSome, MatchOption};
ghost use Rattle.json.specs.Token.{Token as SpecToken, begin_array, begin_object};
ghost use Rattle.json.specs.Lex.{tokens};
ghost use Rattle.json.specs.Json.{document, max_depth, skip_value};
ghost use Rattle.json.specs.Reads.{token_of, opens, skip_items, skip_members};
ghost use Rattle.json.specs.Tape.{node_token, LinkAt, Grown};
ghost use Rattle.json.specs.Find.{HasValue};
ghost use Rattle.json.specs.declared.tape.Node.TheVariants.{Null};
ghost use Rattle.json_tape.specs.Tape.{node_of, has_text, text_at, text_node, HasNumber, IsOpening, leading_to, Moves};

use json::{Invalid, MAX_DEPTH, Node, Reader, Scratch, Token};
use std::alloc::{AllocError, Global};
use std::marker::Model;

/// A text has a token for each four of its bytes at most, as a rule.
const BYTES_OF_A_TOKEN: usize = 4;

/// What stands at a place of a tape: a bracket, a text of some kind, or one of the three words.
#[derive(Clone, Copy, Drop)]
enum Tag {
    Object,
    EndObject,
    Array,
    EndArray,
    Key,
    String,
    Number,
    True,
    False,
    Null,
}

/// The nodes of a tape, five bytes for each, and the texts that they name. A contract sees the nodes.
#[derive(Drop)]
struct Entries<'a> {
    tags: Vec<Tag>,
    /// Of an opening bracket the place behind its closing one, and of a key, a string or a number which of the texts it is.
    numbers: Vec<u32>,
    texts: Vec<&'a str>,
    /// Which of the texts each digit may be. Nothing rests on it: the text is looked at again.
    digits: [u32; 10],
}

impl<'a> Model for Entries<'a> {
    ghost use Rattle.std.specs.Prelude.{List};
    ghost use Rattle.json.specs.declared.tape.Node.{Node};
    ghost use Rattle.json_tape.specs.Tape.{nodes_of, AreNodes};

    ghost Value = { List Node };

    ghost view = { λ a. nodes_of a.texts.items a.tags.items a.numbers.items };

    ghost invariant = { λ a. AreNodes a.texts.items a.tags.items a.numbers.items };
}

impl<'a> Entries<'a> {
    /// None yet, with room for those of a text of so many bytes, as a rule: where that much memory is refused, less may do.
    fn for_text(alloc: Global, len: usize) -> Entries<'a>
        ensures { result ≡ [] }
    {
        Entries {
            tags: with_room(alloc, len / BYTES_OF_A_TOKEN),
            numbers: with_room(alloc, len / BYTES_OF_A_TOKEN),
            texts: with_room(alloc, len / (2 * BYTES_OF_A_TOKEN)),
            digits: [0; 10],
        }
    }

    /// How many there are.
    fn len(&self) -> usize
        ensures { result ≡ length self.now }
    {
        self.tags.len()
    }

    /// One node more, which names no text.
    #[inline(always)]
    fn push(&mut self, tag: Tag, number: u32) -> Result<(), AllocError>
        requires { has_text tag ≡ false }
        ensures { OnOk result (self.new ≡ self.old ++ node_of [] tag number ∷ []) }
    {
        put(&mut self.tags, &mut self.numbers, tag, number)
    }

    /// One node more, of this text.
    #[inline(always)]
    fn push_text(&mut self, tag: Tag, text: &'a str) -> Result<(), AllocError>
        requires kind { has_text tag ≡ true }
        requires few { length self.old < 2 ^ 32 }
        ensures { OnOk result (self.new ≡ self.old ++ text_node tag text.entry ∷ []) }
    {
        self.texts.reserve(1)?;
        put(
            &mut self.tags,
            &mut self.numbers,
            tag,
            self.texts.len() as u32,
        )?;
        self.texts.push_reserved(text);
        Ok(())
    }

    /// A number more. All numbers that are one digit name one text, so that each takes five bytes and no more.
    #[inline(always)]
    fn push_number(&mut self, text: &'a str) -> Result<(), AllocError>
        requires { length self.old < 2 ^ 32 }
        ensures { OnOk result (HasNumber self.old text.entry.now self.new) }
    {
        let Some(digit) = digit(text) else {
            return self.push_text(Tag::Number, text);
        };
        let known = self.digits[digit];
        if is_text(&self.texts, known, text) {
            return put(&mut self.tags, &mut self.numbers, Tag::Number, known);
        }
        self.digits[digit] = self.texts.len() as u32;
        self.push_text(Tag::Number, text)
    }

    /// A closing bracket more. The opening one stands at a place, and now leads behind it.
    fn close(&mut self, at: usize, end: Tag) -> Result<(), AllocError>
        requires opening { IsOpening (get_or self.old at Null) }
        requires kind { has_text end ≡ false }
        requires few { length self.old + 1 < 2 ^ 32 }
        ensures { OnOk result (self.new ≡ slice_set (self.old ++ node_of [] end 0 ∷ []) at (leading_to (length self.old + 1) (get_or self.old at Null))) }
    {
        self.push(end, 0)?;
        self.numbers[at] = self.numbers.len() as u32;
        Ok(())
    }

    /// The node at a place, put together.
    #[inline(always)]
    fn node(&self, at: usize) -> Node<'a>
        requires { at < length self.now }
        ensures { result ≡ get_or self.now at Null }
    {
        node(&self.texts, self.tags[at], self.numbers[at])
    }
}

/// One tag and its number more.
#[inline(always)]
fn put(tags: &mut Vec<Tag>, numbers: &mut Vec<u32>, tag: Tag, number: u32) -> Result<(), AllocError>
    ensures tags { OnOk result (tags.new.items ≡ tags.old.items ++ tag ∷ []) }
    ensures numbers { OnOk result (numbers.new.items ≡ numbers.old.items ++ number ∷ []) }
    ensures kept { OnErr result ((tags.new.items ≡ tags.old.items) × (numbers.new.items ≡ numbers.old.items)) }
{
    tags.reserve(1)?;
    numbers.reserve(1)?;
    tags.push_reserved(tag);
    numbers.push_reserved(number);
    Ok(())
}

/// An empty list, with room for so many where there is memory for it.
fn with_room<T: Drop>(alloc: Global, count: usize) -> Vec<T>
    ensures { result.items ≡ [] }
{
    let mut list = Vec::new(alloc);
    let _ = list.reserve(count);
    list
}

/// The digit that a text is.
#[inline(always)]
fn digit(text: &str) -> Option<usize>
    ensures { IfSome result (λ digit. digit < 10) }
{
    let bytes = text.as_bytes();
    if bytes.len() != 1 {
        return None;
    }
    let digit = bytes[0].wrapping_sub(b'0') as usize;
    if digit < 10 { Some(digit) } else { None }
}

/// Whether the text of a number is this one.
#[inline(always)]
fn is_text(texts: &[&str], number: u32, text: &str) -> bool
    ensures there { result ≡ true → number < length texts.now }
    ensures same { result ≡ true → (text_at texts.now number).now ≡ text.now }
{
    match texts.get(number as usize) {
        Some(there) => *there == text,
        None => false,
    }
}

/// The node of a tag and a number.
#[inline(always)]
fn node<'a>(texts: &[&'a str], tag: Tag, number: u32) -> Node<'a>
    requires { has_text tag ≡ true → number < length texts.now }
    ensures { result ≡ node_of texts.now tag number }
{
    let number = number as usize;
    match tag {
        Tag::Object => Node::Object(number),
        Tag::EndObject => Node::EndObject,
        Tag::Array => Node::Array(number),
        Tag::EndArray => Node::EndArray,
        Tag::Key => Node::Key(texts[number]),
        Tag::String => Node::String(texts[number]),
        Tag::Number => Node::Number(texts[number]),
        Tag::True => Node::Bool(true),
        Tag::False => Node::Bool(false),
        Tag::Null => Node::Null,
    }
}

/// Why a value is not taken into a tape: it is none, or a request for memory was refused.
#[derive(Clone, Copy, Drop)]
enum Stop {
    Invalid,
    Memory,
}

impl From<Invalid> for Stop {
    ghost use Rattle.std.specs.Prelude.{◌≡◌};
    ghost use Rattle.json_tape.specs.declared.tape.Stop.TheVariants.{Invalid as invalid};

    ghost from_gives = { λ _ stop. stop ≡ invalid };

    fn from(_invalid: Invalid) -> Stop {
        Stop::Invalid
    }
}

impl From<AllocError> for Stop {
    ghost use Rattle.std.specs.Prelude.{◌≡◌};
    ghost use Rattle.json_tape.specs.declared.tape.Stop.TheVariants.{Memory};

    ghost from_gives = { λ _ stop. stop ≡ Memory };

    fn from(_refused: AllocError) -> Stop {
        Stop::Memory
    }
}

/// Takes one value, in which arrays and objects nest so deep at most.
#[cycle(tape)]
#[inline(always)]
fn value<'a>(reader: &mut Reader<'a>, nodes: &mut Entries<'a>, depth: usize) -> Result<(), Stop>
    requires { length nodes.old + length reader.old < 2 ^ 32 }
    ensures ok { OnOk result (Moves depth nodes.old reader.old nodes.new reader.new) }
    ensures invalid { result ≡ Err Stop.Invalid → skip_value depth reader.old ≡ None }
{
    let Some(token) = reader.next() else {
        return Err(Stop::Invalid);
    };
    match token {
        Token::BeginArray => if depth == 0 {
            Err(Stop::Invalid)
        } else {
            items(reader, nodes, depth - 1)
        },
        Token::BeginObject => if depth == 0 {
            Err(Stop::Invalid)
        } else {
            members(reader, nodes, depth - 1)
        },
        _ => leaf(nodes, token),
    }
}

/// Takes a token that is a value by itself.
#[inline(always)]
fn leaf<'a>(nodes: &mut Entries<'a>, token: Token<'a>) -> Result<(), Stop>
    requires { length nodes.old < 2 ^ 32 }
    ensures ok { OnOk result ((depth : ℕ) (rest : List SpecToken) → Moves depth nodes.old (token_of token.entry ∷ rest) nodes.new rest) }
    ensures invalid { result ≡ Err Stop.Invalid → (depth : ℕ) (rest : List SpecToken) → opens (token_of token.entry ∷ rest) ≡ false
        → skip_value depth (token_of token.entry ∷ rest) ≡ None }
{
    match token {
        Token::String(text) => Ok(nodes.push_text(Tag::String, text)?),
        Token::Number(text) => Ok(nodes.push_number(text)?),
        Token::Bool(true) => Ok(nodes.push(Tag::True, 0)?),
        Token::Bool(false) => Ok(nodes.push(Tag::False, 0)?),
        Token::Null => Ok(nodes.push(Tag::Null, 0)?),
        Token::BeginObject
        | Token::EndObject
        | Token::BeginArray
        | Token::EndArray
        | Token::Key(_)
        | Token::Bad => Err(Stop::Invalid),
    }
}

/// Takes the items of an array, whose opening bracket has been read.
#[cycle(tape)]
#[inline(never)]
fn items<'a>(reader: &mut Reader<'a>, nodes: &mut Entries<'a>, depth: usize) -> Result<(), Stop>
    requires { length nodes.old + length reader.old + 1 < 2 ^ 32 }
    ensures ok { OnOk result (Grown nodes.old (begin_array ∷ reader.old) nodes.new reader.new × (skip_items depth reader.old ≡ Some reader.new)) }
    ensures invalid { result ≡ Err Stop.Invalid → skip_items depth reader.old ≡ None }
{
    let at = nodes.len();
    nodes.push(Tag::Array, 0)?;
    while !reader.take_end_array() {
        value(reader, nodes, depth)?;
    }
    nodes.close(at, Tag::EndArray)?;
    Ok(())
}

/// Takes the members of an object, whose opening bracket has been read.
#[cycle(tape)]
#[inline(never)]
fn members<'a>(reader: &mut Reader<'a>, nodes: &mut Entries<'a>, depth: usize) -> Result<(), Stop>
    requires { length nodes.old + length reader.old + 1 < 2 ^ 32 }
    ensures ok { OnOk result (Grown nodes.old (begin_object ∷ reader.old) nodes.new reader.new × (skip_members depth reader.old ≡ Some reader.new)) }
    ensures invalid { result ≡ Err Stop.Invalid → skip_members depth reader.old ≡ None }
{
    let at = nodes.len();
    nodes.push(Tag::Object, 0)?;
    while let Some(key) = reader.next_key()? {
        nodes.push_text(Tag::Key, key)?;
        value(reader, nodes, depth)?;
    }
    nodes.close(at, Tag::EndObject)?;
    Ok(())
}

/// Takes a whole text: one value, and nothing behind it.
#[inline(always)]
fn whole<'a>(reader: &mut Reader<'a>, nodes: &mut Entries<'a>) -> Result<(), Stop>
    requires { length nodes.old + length reader.old < 2 ^ 32 }
    ensures ok { OnOk result (Moves max_depth nodes.old reader.old nodes.new []) }
    ensures invalid { result ≡ Err Stop.Invalid → skip_value max_depth reader.old ≢ Some [] }
{
    value(reader, nodes, MAX_DEPTH)?;
    match reader.next() {
        Some(_) => Err(Stop::Invalid),
        None => Ok(()),
    }
}

/// No tape, where a text was not taken into one.
#[inline(always)]
fn without_tape<'a>(stop: Stop) -> Result<Option<Tape<'a>>, AllocError>
    ensures { IfOk result (λ found. (found ≡ None) × (stop ≡ Stop.Invalid)) }
{
    match stop {
        Stop::Invalid => Ok(None),
        Stop::Memory => Err(AllocError),
    }
}

/// A text of JSON, token by token. A contract sees the tokens.
#[derive(Drop)]
pub struct Tape<'a> {
    nodes: Entries<'a>,
}

impl<'a> Model for Tape<'a> {
    ghost use Rattle.std.specs.Prelude.{List, map};
    ghost use Rattle.json.specs.Token.{Token, tokens_code};
    ghost use Rattle.json.specs.Tape.{node_token, Linked};
    ghost use Rattle.json.specs.Find.{HasValue};

    ghost Value = { List Token };

    ghost coded = { tokens_code };

    ghost view = { λ a. map node_token a.nodes };

    ghost invariant = { λ a. Linked (map node_token a.nodes) 0 a.nodes × HasValue (map node_token a.nodes) };
}

/// What a text is, taken into a tape.
#[derive(Drop)]
pub enum Parsed<'a> {
    Tape(Tape<'a>),
    NotJson,
    /// No tape is made of 4 GiB or more.
    TooLong,
}

impl<'a> Parsed<'a> {
    ghost use Rattle.json_tape.specs.Text.{IsParsed};

    /// What a text is. The one error is a refused request for memory.
    pub fn of(
        alloc: Global,
        text: &'a str,
        scratch: &'a mut Scratch,
    ) -> Result<Parsed<'a>, AllocError>
        ensures { IfOk result (λ parsed. IsParsed parsed text.now) }
    {
        if text.len() > u32::MAX as usize {
            return Ok(Parsed::TooLong);
        }
        match Tape::parse(alloc, text, scratch) {
            Ok(Some(tape)) => Ok(Parsed::Tape(tape)),
            Ok(None) => Ok(Parsed::NotJson),
            Err(refused) => Err(refused),
        }
    }
}

impl<'a> Tape<'a> {
    /// The tape of a text; none where the text is no JSON. The one error is a refused request for memory.
    pub fn parse(
        alloc: Global,
        text: &'a str,
        scratch: &'a mut Scratch,
    ) -> Result<Option<Tape<'a>>, AllocError>
        requires { length text.now < 2 ^ 32 }
        ensures { IfOk result (λ found. MatchOption found (document text.now ≡ None)
            (λ tape. (tape ≡ tokens text.now) × IsSome (document text.now))) }
    {
        let mut reader = Reader::new(text, scratch)?;
        let mut nodes = Entries::for_text(alloc, text.len());
        match whole(&mut reader, &mut nodes) {
            Ok(()) => Ok(Some(Tape { nodes })),
            Err(stop) => without_tape(stop),
        }
    }

    /// How many tokens there are. They begin with a value.
    #[inline(always)]
    pub(crate) fn len(&self) -> usize
        ensures length { result ≡ length self.now }
        ensures value { HasValue self.now }
    {
        self.nodes.len()
    }

    /// What stands at a place.
    #[inline(always)]
    pub(crate) fn node(&self, at: usize) -> Node<'a>
        requires { at < length self.now }
        ensures token { drop at self.now ≡ node_token result ∷ drop (at + 1) self.now }
        ensures link { LinkAt self.now at result }
    {
        self.nodes.node(at)
    }
}
