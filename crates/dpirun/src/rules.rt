//! The rule that files break first: one of SystemVerilog, else of C, else of linking.

ghost use Rattle.std.specs.Prelude.{◌≡◌, ◌≤◌, length, IfOk};
ghost use Rattle.std.specs.String.{string_bytes};
ghost use Rattle.dpirun.specs.Rules as spec;
ghost use Rattle.dpirun.specs.Shown.{sources_shown};

use crate::command::Language;
use crate::sources::Sources;
use c_tree::CFile;
use dpi_ports::NoMemory;
use dpi_rules::Violation;
use std::alloc::Global;
use sv_tree::SvFile;

/// Rules that are looked at together.
#[derive(Clone, Copy, Debug, PartialEq, Eq)]
pub enum RuleSet {
    /// Those of SystemVerilog.
    SystemVerilog,
    /// Those of C.
    C,
    /// Those of linking that SystemVerilog files break, at imports and exports.
    SvLinking,
    /// Those of linking that C files break, at calls.
    CLinking,
}

impl RuleSet {
    /// The language of the files that break such a rule.
    pub fn broken_in(self) -> Language
        ensures { result ≡ spec.broken_in self }
    {
        match self {
            RuleSet::SystemVerilog => Language::SystemVerilog,
            RuleSet::C => Language::C,
            RuleSet::SvLinking => Language::SystemVerilog,
            RuleSet::CLinking => Language::C,
        }
    }

    // the letter before the number of such a rule
    fn letter(self) -> &'static str
        ensures { result.now ≡ spec.letter self }
    {
        match self {
            RuleSet::SystemVerilog => "S",
            RuleSet::C => "C",
            RuleSet::SvLinking => "L",
            RuleSet::CLinking => "L",
        }
    }
}

/// A rule that is broken.
#[derive(Clone, Copy, Debug, PartialEq, Eq)]
pub struct Broken {
    /// The rules of which it is one.
    pub rules: RuleSet,
    /// The file, numbered from 0 among those of its language, its token and the rule.
    pub violation: Violation,
}

impl Broken {
    // the violation, where there is one, as one of these rules
    fn of(rules: RuleSet, violation: Option<Violation>) -> Option<Broken>
        ensures { result ≡ spec.broken_by rules violation }
    {
        match violation {
            Some(violation) => Some(Broken { rules, violation }),
            None => None,
        }
    }

    /// How the rule is printed: `S`, `C` or `L`, and its number. `NoMemory` where no memory was
    /// found.
    pub fn code(self, alloc: Global) -> Result<String, NoMemory>
        ensures { IfOk result (λ code. string_bytes code ≡ spec.rule_bytes self.rules self.violation.rule) }
    {
        let letter = self.rules.letter();
        let rule = self.violation.rule;
        Ok(format!(in alloc; "{letter}{rule}")?)
    }
}

// the least violation of SystemVerilog's rules
fn sv_broken(alloc: Global, svs: &[SvFile]) -> Result<Option<Violation>, NoMemory>
    requires { length svs.now ≤ 1000 }
    ensures { IfOk result (λ v. v ≡ spec.sv_broken svs.now) }
{
    sv_check::check(alloc, svs)
}

// the least violation of C's rules
fn c_broken(alloc: Global, cs: &[CFile]) -> Result<Option<Violation>, NoMemory>
    requires { length cs.now ≤ 1000 }
    ensures { IfOk result (λ v. v ≡ spec.c_broken cs.now) }
{
    c_check::check(alloc, cs)
}

// the least violation of the rules of linking in SystemVerilog files
fn sv_unlinked(alloc: Global, svs: &[SvFile], cs: &[CFile]) -> Result<Option<Violation>, NoMemory>
    requires sv { length svs.now ≤ 1000 }
    requires c { length cs.now ≤ 1000 }
    ensures { IfOk result (λ v. v ≡ spec.sv_unlinked svs.now cs.now) }
{
    dpi_links::check_sv(alloc, svs, cs)
}

// the same in C files
fn c_unlinked(alloc: Global, svs: &[SvFile], cs: &[CFile]) -> Result<Option<Violation>, NoMemory>
    requires sv { length svs.now ≤ 1000 }
    requires c { length cs.now ≤ 1000 }
    ensures { IfOk result (λ v. v ≡ spec.c_unlinked svs.now cs.now) }
{
    dpi_links::check_c(alloc, svs, cs)
}

// the rule of a language that is broken
fn of_languages(alloc: Global, sources: &Sources) -> Result<Option<Broken>, NoMemory>
    requires sv { length sources.now.sv_trees.items ≤ 1000 }
    requires c { length sources.now.c_trees.items ≤ 1000 }
    ensures { IfOk result (λ found. found ≡ spec.of_languages (sources_shown sources.now)) }
{
    match Broken::of(RuleSet::SystemVerilog, sv_broken(alloc, &sources.sv_trees)?) {
        Some(broken) => Ok(Some(broken)),
        None => Ok(Broken::of(RuleSet::C, c_broken(alloc, &sources.c_trees)?)),
    }
}

// the rule of linking that is broken
fn of_linking(alloc: Global, sources: &Sources) -> Result<Option<Broken>, NoMemory>
    requires sv { length sources.now.sv_trees.items ≤ 1000 }
    requires c { length sources.now.c_trees.items ≤ 1000 }
    ensures { IfOk result (λ found. found ≡ spec.of_linking (sources_shown sources.now)) }
{
    let violation = sv_unlinked(alloc, &sources.sv_trees, &sources.c_trees)?;
    match Broken::of(RuleSet::SvLinking, violation) {
        Some(broken) => Ok(Some(broken)),
        None => {
            let violation = c_unlinked(alloc, &sources.sv_trees, &sources.c_trees)?;
            Ok(Broken::of(RuleSet::CLinking, violation))
        }
    }
}

/// The least violation of the SystemVerilog files, else that of the C files, else that of the rules
/// of linking in the SystemVerilog files, else in the C files; None where no rule is broken. There
/// are at most 1,000 files of each language. `NoMemory` where no memory was found.
pub fn first_broken(alloc: Global, sources: &Sources) -> Result<Option<Broken>, NoMemory>
    requires sv { length sources.now.sv_trees.items ≤ 1000 }
    requires c { length sources.now.c_trees.items ≤ 1000 }
    ensures { IfOk result (λ found. found ≡ spec.first_broken (sources_shown sources.now)) }
{
    match of_languages(alloc, sources)? {
        Some(broken) => Ok(Some(broken)),
        None => of_linking(alloc, sources),
    }
}
