// The lines of an audit.
ghost use Rattle.std.specs.Prelude.{◌≡◌, ◌≤◌, ◌+◌, ◌++◌, length, codes};
ghost use Rattle.tetra_engine.specs.Verdicts.{rule_text, field_text, verdict_text, verdict_line};

use crate::texts::{add, add_number};
use arrayvec::ArrayString;
use tetra_audit::{FieldWhy, SlotVerdict};
use tetra_cert::Rule;

/// The line of a slot, with its newline.
pub type Line = ArrayString<128>;

fn text_of_rule(rule: Rule) -> &'static str
    ensures text { result.now ≡ rule_text rule }
    ensures short { length result.now ≤ 6 }
{
    match rule {
        Rule::End => "end",
        Rule::Edge0 => "edge 0",
        Rule::Edge1 => "edge 1",
        Rule::Path => "path",
        Rule::Tie => "tie",
    }
}

fn add_refusal(text: &mut Line, step: u16, state: u8, rule: Rule)
    requires { length text.old.bytes ≤ 60 }
    ensures text { text.new.bytes ≡ text.old.bytes ++ field_text (FieldWhy.Cert step state rule) }
    ensures short { length text.new.bytes ≤ length text.old.bytes + 59 }
{
    add(text, "step ");
    add_number(text, step as u64);
    add(text, " state ");
    add_number(text, state as u64);
    add(text, " ");
    add(text, text_of_rule(rule));
}

fn add_why(text: &mut Line, why: FieldWhy)
    requires { length text.old.bytes ≤ 60 }
    ensures text { text.new.bytes ≡ text.old.bytes ++ field_text why }
    ensures short { length text.new.bytes ≤ length text.old.bytes + 59 }
{
    match why {
        FieldWhy::Pad => add(text, "pad"),
        FieldWhy::Bits => add(text, "bits"),
        FieldWhy::Cert { step, state, rule } => add_refusal(text, step, state, rule),
        FieldWhy::Metric => add(text, "metric"),
        FieldWhy::Mark => add(text, "mark"),
    }
}

fn add_field(text: &mut Line, index: u8, why: FieldWhy)
    requires { length text.old.bytes ≤ 21 }
    ensures text { text.new.bytes ≡ text.old.bytes ++ verdict_text (SlotVerdict.Field index why) }
    ensures short { length text.new.bytes ≤ 120 }
{
    add(text, "refused field ");
    add_number(text, index as u64);
    add(text, " ");
    add_why(text, why);
}

/// The line of a slot, with its newline.
pub fn line_of_slot(slot: u64, verdict: SlotVerdict) -> Line
    ensures { result.bytes ≡ verdict_line slot verdict }
{
    let mut text = Line::new();
    add_number(&mut text, slot);
    add(&mut text, " ");
    match verdict {
        SlotVerdict::Agrees => add(&mut text, "ok"),
        SlotVerdict::Kind => add(&mut text, "refused kind"),
        SlotVerdict::Field { index, why } => add_field(&mut text, index, why),
    }
    add(&mut text, "\n");
    text
}
