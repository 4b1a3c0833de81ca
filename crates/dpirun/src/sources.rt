//! Files that are accepted by themselves, with their tokens and trees.

ghost use Rattle.std.specs.Prelude.{◌≡◌, [], map, OnOk};
ghost use Rattle.dpi_lex.specs.Place.{line_of, column_of};
ghost use Rattle.dpi_lex.specs.Words.{place_of};
ghost use Rattle.dpirun.specs.Readings.{with_sv, with_c};
ghost use Rattle.dpirun.specs.Shown.{source_shown, sources_shown};
ghost use Rattle.dpirun.specs.Sources.{files_of};

use crate::command::Language;
use c_tree::CFile;
use dpi_lex::Tokens;
use dpi_ports::NoMemory;
use std::alloc::Global;
use sv_tree::SvFile;

/// A file with its tokens.
#[derive(Drop)]
pub struct Source {
    /// Its name, as it was spelled.
    pub name: String,
    /// Its text, with tokens.
    pub tokens: Tokens,
}

/// The files of a command. Those of a language are numbered from 0 in the order of the words.
#[derive(Drop)]
pub struct Sources {
    /// The SystemVerilog files.
    pub sv: Vec<Source>,
    /// The trees of the SystemVerilog files.
    pub sv_trees: Vec<SvFile>,
    /// The C files.
    pub c: Vec<Source>,
    /// The trees of the C files.
    pub c_trees: Vec<CFile>,
}

impl Source {
    /// The line and the column of a token's first byte, both from 1. Tokens are numbered from 0,
    /// and a number past the last one stands for the end of the text.
    #[tactic(auto, using(crate::proofs::Places::place_within))]
    pub fn line_column(&self, token: u32) -> (u32, u32)
        ensures line { result.0 ≡ line_of self.now.tokens.text (place_of self.now.tokens token) }
        ensures column { result.1 ≡ column_of self.now.tokens.text (place_of self.now.tokens token) }
    {
        let token = token.min(self.tokens.len());
        self.tokens.line_column(self.tokens.place(token))
    }
}

impl Sources {
    /// No files.
    pub fn new(alloc: Global) -> Sources
        ensures { sources_shown result ≡ record { sv = []; sv_trees = []; c = []; c_trees = [] } }
    {
        Sources {
            sv: Vec::new(alloc),
            sv_trees: Vec::new(alloc),
            c: Vec::new(alloc),
            c_trees: Vec::new(alloc),
        }
    }

    /// The files of a language.
    pub fn of(&self, language: Language) -> &[Source]
        ensures { map source_shown result.now ≡ files_of language (sources_shown self.now) }
    {
        match language {
            Language::SystemVerilog => self.sv.as_slice(),
            Language::C => self.c.as_slice(),
        }
    }

    /// Adds a SystemVerilog file with its tree.
    pub fn add_sv(&mut self, source: Source, tree: SvFile) -> Result<(), NoMemory>
        ensures { OnOk result (sources_shown self.new ≡ with_sv (sources_shown self.old) (source_shown source) tree) }
    {
        self.sv.push(source)?;
        self.sv_trees.push(tree)?;
        Ok(())
    }

    /// Adds a C file with its tree.
    pub fn add_c(&mut self, source: Source, tree: CFile) -> Result<(), NoMemory>
        ensures { OnOk result (sources_shown self.new ≡ with_c (sources_shown self.old) (source_shown source) tree) }
    {
        self.c.push(source)?;
        self.c_trees.push(tree)?;
        Ok(())
    }
}
