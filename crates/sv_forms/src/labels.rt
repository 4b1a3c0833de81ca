//! Closing labels (IEEE 1800-2017, 9.3.4).
ghost use Rattle.std.specs.Prelude.{◌≡◌};
ghost use Rattle.dpi_rules.specs.Least.{noted};
ghost use Rattle.sv_forms.specs.Labels as spec;

use dpi_rules::{Violation, note};
use sv_tree::{Label, Name};

/// The rule on closing labels.
const LABEL_RULE: u8 = 7;

/// Whether the label repeats the name.
fn repeats(name: &Name, label: &Label) -> bool
    ensures { result ≡ spec.repeats name.now label.now }
{
    name.bytes.as_slice() == label.name.bytes.as_slice()
}

/// Whether the label behind `end` repeats the one behind `begin`, which may be absent.
fn repeats_label(begin: &Option<Label>, label: &Label) -> bool
    ensures { result ≡ spec.repeats_label begin.now label.now }
{
    match begin {
        None => false,
        Some(begin) => repeats(&begin.name, label),
    }
}

fn note_label(file: u32, label: &Label, repeated: bool, found: &mut Option<Violation>)
    ensures { found.new ≡ noted found.old (spec.unless_repeated file label.now repeated) }
{
    if !repeated {
        let violation = Violation {
            file,
            token: label.name.token,
            rule: LABEL_RULE,
        };
        note(found, violation);
    }
}

/// Notes rule 7 at a closing label that isn't the name.
pub(crate) fn note_end(file: u32, name: &Name, end: &Option<Label>, found: &mut Option<Violation>)
    ensures { found.new ≡ noted found.old (spec.end_violations file name.now end.now) }
{
    if let Some(label) = end {
        note_label(file, label, repeats(name, label), found);
    }
}

/// Notes rule 7 at the closing label of a block that isn't the label behind its `begin`.
pub(crate) fn note_block_end(
    file: u32,
    begin: &Option<Label>,
    end: &Option<Label>,
    found: &mut Option<Violation>,
)
    ensures { found.new ≡ noted found.old (spec.block_end_violations file begin.now end.now) }
{
    if let Some(label) = end {
        note_label(file, label, repeats_label(begin, label), found);
    }
}
