//! Exports by their names in C (IEEE 1800-2017, 35.4).
ghost use Rattle.std.specs.Prelude.{◌≡◌, None, map, option_map, IfOk, OnOk, ℕ, List};
ghost use Rattle.std.specs.Option.{option_or};
ghost use Rattle.c_functions.specs.Again.{added};
ghost use Rattle.dpi_links.specs.Exports.{named_told, export_of};
ghost use Rattle.dpi_links.specs.Exporters as spec;

use dpi_agree::LinkedExport;
use dpi_ports::NoMemory;
use std::alloc::Global;
use std::collections::BTreeMap;

/// The exports of all modules by their names in C: the first export of a name counts.
#[derive(Drop)]
pub(crate) struct Exporters<'a> {
    names: BTreeMap<&'a [u8], LinkedExport<'a>>,
}

impl<'a> Exporters<'a> {
    fn new(alloc: Global) -> Exporters<'a>
        ensures { (q : List ℕ) → spec.exports_of result q ≡ None }
    {
        Exporters {
            names: BTreeMap::new(alloc),
        }
    }

    /// The first export of this name in C; None where there is none.
    pub(crate) fn get(&self, name: &[u8]) -> Option<LinkedExport<'a>>
        ensures { option_map named_told result ≡ spec.exports_of self.now name.now }
    {
        self.names.get(name).copied()
    }

    fn add(&mut self, export: LinkedExport<'a>) -> Result<(), NoMemory>
        ensures { OnOk result ((q : List ℕ) → spec.exports_of self.new q ≡ added (spec.exports_of self.old) export.entry.name.now (named_told export.entry) q) }
    {
        if self.names.get(export.name).is_none() {
            self.names.insert(export.name, export)?;
        }
        Ok(())
    }
}

/// The first export of each name in C among these. NoMemory where no memory was found.
pub(crate) fn exporters_of<'a>(
    alloc: Global,
    exports: &[LinkedExport<'a>],
) -> Result<Exporters<'a>, NoMemory>
    ensures { IfOk result (λ e. (q : List ℕ) → spec.exports_of e q ≡ export_of (map named_told exports.now) q) }
{
    let mut exporters = Exporters::new(alloc);
    for export in exports {
        exporters.add(*export)?;
    }
    Ok(exporters)
}
