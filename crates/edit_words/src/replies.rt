// The lines of answers.
ghost use Rattle.std.specs.Prelude.{◌≡◌, ◌++◌, ◌∷◌, [], OnOk, IfOk, codes, flat_map};
ghost use Rattle.std.specs.Fmt.{decimal};
ghost use Rattle.script_model.specs.RuleWords.{rule_word};
ghost use Rattle.script_model.specs.Texts.{reply_text, at_front};
ghost use Rattle.script_model.specs.Words.{spaced, element_words};

use crate::words::{push_count_word, push_element, push_word};
use std::alloc::Global;
use topo_base::{Answer, Element, Ids, Memory, Rule, Text};

/// The printed word of a rule.
pub fn rule_text(rule: Rule) -> &'static [u8]
    ensures { result.now ≡ rule_word rule }
{
    match rule {
        Rule::NoNode => b"NoNode",
        Rule::NoEdge => b"NoEdge",
        Rule::NoFace => b"NoFace",
        Rule::NoLayer => b"NoLayer",
        Rule::NoFeature => b"NoFeature",
        Rule::NotIsolated => b"NotIsolated",
        Rule::PointBlocked => b"PointBlocked",
        Rule::NotInFace => b"NotInFace",
        Rule::LineEnds => b"LineEnds",
        Rule::LineNotSimple => b"LineNotSimple",
        Rule::LineBlocked => b"LineBlocked",
        Rule::SameNode => b"SameNode",
        Rule::NotOnEdge => b"NotOnEdge",
        Rule::NotJoined => b"NotJoined",
        Rule::OthersJoined => b"OthersJoined",
        Rule::ClosedEdge => b"ClosedEdge",
        Rule::EdgeInFeature => b"EdgeInFeature",
        Rule::FaceInFeature => b"FaceInFeature",
        Rule::HealSplitsFeature => b"HealSplitsFeature",
        Rule::NodeInFeature => b"NodeInFeature",
        Rule::WrongKind => b"WrongKind",
        Rule::ElementListed => b"ElementListed",
        Rule::ElementNotListed => b"ElementNotListed",
        Rule::FeatureUsed => b"FeatureUsed",
        Rule::NameTaken => b"NameTaken",
        Rule::UniverseElement => b"UniverseElement",
        Rule::IdsSpent => b"IdsSpent",
        Rule::HistoryFull => b"HistoryFull",
    }
}

/// The place behind a reply, and the end of the line.
fn push_front(text: &mut Text, front: u64) -> Result<(), Memory>
    ensures { OnOk result (text.new ≡ text.old ++ (spaced (at_front front) ++ 10 ∷ [])) }
{
    push_word(text, b"at")?;
    push_count_word(text, front)?;
    text.push(b'\n')
}

fn push_elements(text: &mut Text, elements: &[Element]) -> Result<(), Memory>
    ensures { OnOk result (text.new ≡ text.old ++ spaced (flat_map element_words elements.now)) }
{
    for element in elements {
        push_element(text, *element)?;
    }
    Ok(())
}

fn push_done(text: &mut Text, ids: &Ids, front: u64) -> Result<(), Memory>
    ensures { OnOk result (text.new ≡ text.old ++ reply_text (Answer.Done ids.now front)) }
{
    text.push_bytes(b"done")?;
    push_elements(text, ids.as_slice())?;
    push_front(text, front)
}

fn push_refused(text: &mut Text, rule: Rule, front: u64) -> Result<(), Memory>
    ensures { OnOk result (text.new ≡ text.old ++ reply_text (Answer.Refused rule front)) }
{
    text.push_bytes(b"refused")?;
    push_word(text, rule_text(rule))?;
    push_front(text, front)
}

/// The stamp that was read, and the stamp now.
fn push_stamps(text: &mut Text, read: u64, now: u64) -> Result<(), Memory>
    ensures { OnOk result (text.new ≡ text.old
        ++ spaced (codes "read" ∷ decimal read ∷ codes "now" ∷ decimal now ∷ [])) }
{
    push_word(text, b"read")?;
    push_count_word(text, read)?;
    push_word(text, b"now")?;
    push_count_word(text, now)
}

fn push_stale(
    text: &mut Text,
    element: Element,
    read: u64,
    now: u64,
    front: u64,
) -> Result<(), Memory>
    ensures { OnOk result (text.new ≡ text.old ++ reply_text (Answer.Stale element read now front)) }
{
    text.push_bytes(b"stale")?;
    push_element(text, element)?;
    push_stamps(text, read, now)?;
    push_front(text, front)
}

/// Appends the line of an answer.
fn push_reply(text: &mut Text, answer: &Answer) -> Result<(), Memory>
    ensures { OnOk result (text.new ≡ text.old ++ reply_text answer.now) }
{
    match answer {
        Answer::Done { ids, front } => push_done(text, ids, *front),
        Answer::Refused { rule, front } => push_refused(text, *rule, *front),
        Answer::Unbound => text.push_bytes(b"refused Unbound\n"),
        Answer::Stale {
            element,
            read,
            now,
            front,
        } => push_stale(text, *element, *read, *now, *front),
        Answer::DiskFault => text.push_bytes(b"diskfault\n"),
        Answer::Memory => text.push_bytes(b"memory\n"),
    }
}

/// The line of an answer, with its line feed.
pub fn reply_text(alloc: Global, answer: &Answer) -> Result<Text, Memory>
    ensures { IfOk result (λ t. t ≡ reply_text answer.now) }
{
    let mut text = Text::new(alloc);
    push_reply(&mut text, answer)?;
    Ok(text)
}
