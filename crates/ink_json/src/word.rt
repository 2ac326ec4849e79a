//! The words that stand for leaves.

ghost use Rattle.std.specs.Prelude.{◌≡◌};
ghost use Rattle.ink_model.specs.Story.Word.{word, operator_word, meant, number_words};
ghost use Rattle.ink_json.specs.Words.{evaluation_word, section_word, frame_word, count_word, comparison_word, logic_word};

use ink_model::{Control, Leaf, Op};

/// The leaf that a word stands for.
#[inline(always)]
#[tactic(auto, unfolding(ink_model::specs::Story::Word::word))]
pub(crate) fn word_leaf(text: &str) -> Option<Leaf>
    ensures { result ≡ word text.now }
{
    match text {
        "\n" => Some(Leaf::Newline),
        "<>" => Some(Leaf::Glue),
        "done" => Some(Leaf::Control(Control::Done)),
        "end" => Some(Leaf::Control(Control::End)),
        "nop" => Some(Leaf::Control(Control::Nop)),
        "void" => Some(Leaf::Void),
        _ => evaluation(text),
    }
}

// The same, of a word that is none of flow. Each function here hands on to the next what is none of its own words.
fn evaluation(text: &str) -> Option<Leaf>
    ensures { result ≡ evaluation_word text.now }
{
    match text {
        "ev" => Some(Leaf::Control(Control::BeginEval)),
        "/ev" => Some(Leaf::Control(Control::EndEval)),
        "out" => Some(Leaf::Control(Control::Out)),
        "pop" => Some(Leaf::Control(Control::Pop)),
        "du" => Some(Leaf::Control(Control::Duplicate)),
        _ => section(text),
    }
}

fn section(text: &str) -> Option<Leaf>
    ensures { result ≡ section_word text.now }
{
    match text {
        "str" => Some(Leaf::Control(Control::BeginString)),
        "/str" => Some(Leaf::Control(Control::EndString)),
        "#" => Some(Leaf::Control(Control::BeginTag)),
        "/#" => Some(Leaf::Control(Control::EndTag)),
        _ => frame(text),
    }
}

fn frame(text: &str) -> Option<Leaf>
    ensures { result ≡ frame_word text.now }
{
    match text {
        "~ret" => Some(Leaf::Control(Control::Return)),
        "->->" => Some(Leaf::Control(Control::ReturnTunnel)),
        "thread" => Some(Leaf::Control(Control::Thread)),
        _ => count(text),
    }
}

fn count(text: &str) -> Option<Leaf>
    ensures { result ≡ count_word text.now }
{
    match text {
        "choiceCnt" => Some(Leaf::Control(Control::ChoiceCount)),
        "turn" => Some(Leaf::Control(Control::Turn)),
        "turns" => Some(Leaf::Control(Control::Turns)),
        "readc" => Some(Leaf::Control(Control::ReadCount)),
        "visit" => Some(Leaf::Control(Control::Visit)),
        _ => operator(text),
    }
}

/// The leaf that an operator is.
#[tactic(auto, unfolding(ink_model::specs::Story::Word::operator_word))]
fn operator(text: &str) -> Option<Leaf>
    ensures { result ≡ operator_word text.now }
{
    match text {
        "+" => Some(Leaf::Op(Op::Add)),
        "-" => Some(Leaf::Op(Op::Subtract)),
        "/" => Some(Leaf::Op(Op::Divide)),
        "*" => Some(Leaf::Op(Op::Multiply)),
        "%" => Some(Leaf::Op(Op::Remainder)),
        "_" => Some(Leaf::Op(Op::Negate)),
        _ => comparison(text),
    }
}

fn comparison(text: &str) -> Option<Leaf>
    ensures { result ≡ comparison_word text.now }
{
    match text {
        "==" => Some(Leaf::Op(Op::Equal)),
        ">" => Some(Leaf::Op(Op::Greater)),
        "<" => Some(Leaf::Op(Op::Less)),
        ">=" => Some(Leaf::Op(Op::AtLeast)),
        "<=" => Some(Leaf::Op(Op::AtMost)),
        "!=" => Some(Leaf::Op(Op::NotEqual)),
        _ => logic(text),
    }
}

fn logic(text: &str) -> Option<Leaf>
    ensures { result ≡ logic_word text.now }
{
    match text {
        "!" => Some(Leaf::Op(Op::Not)),
        "&&" => Some(Leaf::Op(Op::And)),
        "||" => Some(Leaf::Op(Op::Or)),
        "?" => Some(Leaf::Op(Op::Has)),
        "!?" => Some(Leaf::Op(Op::HasNot)),
        _ => number(text),
    }
}

fn number(text: &str) -> Option<Leaf>
    ensures { result ≡ meant text.now number_words }
{
    match text {
        "MIN" => Some(Leaf::Op(Op::Min)),
        "MAX" => Some(Leaf::Op(Op::Max)),
        "FLOOR" => Some(Leaf::Op(Op::Floor)),
        "CEILING" => Some(Leaf::Op(Op::Ceiling)),
        "INT" => Some(Leaf::Op(Op::Int)),
        _ => None,
    }
}
