//! One of several modules of a text (IEEE 1364, structural part).

ghost use Rattle.std.specs.Prelude.{◌≡◌, ◌++◌, ◌∷◌, [], IfOk, OnOk};
ghost use Rattle.dft_base.specs.Name.{IsName};
ghost use Rattle.dft_modules.specs.ModuleTexts as texts;
ghost use Rattle.dft_modules.specs.SubInstances as spec;
ghost use Rattle.dft_lexing.specs.Reading as reading;
ghost use Rattle.dft_verilog_module.specs.SaidModules.{said, behind_item_name, behind_name, in_module_error, next_named};
ghost use Rattle.dft_verilog_tokens.specs.Reading.{Reads};

use crate::header::{headed, module_name};
use crate::instances::instances;
use crate::module::module_end;
use crate::module_instances::sub_instances;
use crate::module_items::item;
use dft_base::Name;
use dft_cells::Library;
use dft_modules::ModulesFault;
use dft_netlist_text::TokenKind;
use dft_verilog_draft::{DraftSub, ModuleDraft, NameSet};
use dft_verilog_tokens::{ReadError, Tokens, Word};
use std::alloc::Global;

/// What one of several modules said: what a lone module may say, and its instances of modules.
#[derive(Debug, Drop)]
pub struct SaidModule<'a> {
    pub draft: ModuleDraft<'a>,
    pub subs: Vec<DraftSub<'a>>,
}

/// Why a text of several modules was not read: its first fault, or memory ran out.
pub type ModulesReadError = dft_lexing::ReadError<ModulesFault>;

#[tactic(auto, using(crate::proofs::SubLemmas::named_items))]
// An item behind the name that it begins with: instances of the cell of that name, or of a module where no cell has it.
fn named_item<'a>(
    word: &'a [u8],
    library: &Library,
    subs: &mut Vec<DraftSub<'a>>,
    draft: &mut ModuleDraft<'a>,
    tokens: &mut Tokens<'a>,
) -> Result<(), ReadError>
    requires name { IsName word.now }
    requires cells { draft.old.library ≡ library.now }
    ensures read { Reads (λ _. said draft.new subs.new.items) (behind_item_name word.now (said draft.old subs.old.items) tokens.old) result tokens.new }
    ensures library { OnOk result (draft.new.library ≡ draft.old.library) }
{
    match library.find(word) {
        None => sub_instances(word, subs, draft, tokens),
        Some(id) => instances(id, library.cell(id), draft, tokens),
    }
}

#[tactic(auto, using(crate::proofs::SubLemmas::module_items_read))]
// One item of one of several modules.
fn module_item<'a>(
    library: &Library,
    subs: &mut Vec<DraftSub<'a>>,
    draft: &mut ModuleDraft<'a>,
    tokens: &mut Tokens<'a>,
) -> Result<(), ReadError>
    requires { draft.old.library ≡ library.now }
    ensures read { Reads (λ _. said draft.new subs.new.items) (spec.module_item (said draft.old subs.old.items) tokens.old) result tokens.new }
    ensures library { OnOk result (draft.new.library ≡ draft.old.library) }
{
    if tokens.sees(TokenKind::Name) {
        let word = tokens.take();
        named_item(word, library, subs, draft, tokens)
    } else {
        item(draft, tokens)
    }
}

// The items before `endmodule`.
fn module_items<'a>(
    library: &Library,
    subs: &mut Vec<DraftSub<'a>>,
    draft: &mut ModuleDraft<'a>,
    tokens: &mut Tokens<'a>,
) -> Result<(), ReadError>
    requires { draft.old.library ≡ library.now }
    ensures read { Reads (λ _. said draft.new subs.new.items) (spec.module_items (said draft.old subs.old.items) tokens.old) result tokens.new }
    ensures library { OnOk result (draft.new.library ≡ draft.old.library) }
{
    'turns: for _turn in 0..tokens.left() {
        if tokens.sees(TokenKind::Endmodule) {
            return Ok(());
        }
        module_item(library, subs, draft, tokens)?;
    }
    Ok(())
}

#[tactic(auto, unfolding(crate::specs::SaidModules::behind_name))]
// A module behind its name, to its `endmodule`.
fn module_behind<'a>(
    alloc: Global,
    word: &'a [u8],
    library: Library,
    cells: &Library,
    tokens: &mut Tokens<'a>,
) -> Result<SaidModule<'a>, ReadError>
    requires name { IsName word.now }
    requires same { cells.now ≡ library }
    ensures read { Reads (λ m. said m.draft m.subs.items) (behind_name word.now library tokens.old) result tokens.new }
    ensures library { IfOk result (λ m. m.draft.library ≡ library) }
{
    let mut draft = headed(alloc, word, library, tokens)?;
    let mut subs = Vec::new(alloc);
    module_items(cells, &mut subs, &mut draft, tokens)?;
    module_end(&draft, tokens)?;
    Ok(SaidModule { draft, subs })
}

// Whether a module's name is that of a cell, or of a module before it.
fn is_repeated(names: &NameSet<'_>, cells: &Library, word: &[u8]) -> bool
    ensures { result ≡ texts.is_repeated cells.now names.now word.now }
{
    cells.find(word).is_some() || names.has(word)
}

/// How the fault of a module is told of a text of several.
pub fn in_module(error: ReadError) -> ModulesReadError
    ensures { result ≡ in_module_error error }
{
    match error {
        ReadError::Fault(fault) => ModulesReadError::Fault(ModulesFault::Module(fault)),
        ReadError::Memory(error) => ModulesReadError::Memory(error),
    }
}

// The fault of a name that is repeated.
fn repeated(alloc: Global, word: &[u8]) -> ModulesReadError
    requires { IsName word.now }
    ensures { reading.Faults (ModulesFault.Repeated word.now) result }
{
    match Name::from_slice(alloc, word) {
        Ok(name) => ModulesReadError::Fault(ModulesFault::Repeated(name)),
        Err(error) => ModulesReadError::Memory(error),
    }
}

#[tactic(auto, using(crate::proofs::SubLemmas::named_modules))]
// The next module behind its name, which is one of these from here on.
fn next_named<'a>(
    alloc: Global,
    word: &'a [u8],
    names: &mut NameSet<'a>,
    library: Library,
    cells: &Library,
    tokens: &mut Tokens<'a>,
) -> Result<SaidModule<'a>, ModulesReadError>
    requires name { IsName word.now }
    requires same { cells.now ≡ library }
    ensures read { reading.Reads (λ m. said m.draft m.subs.items) (next_named library names.old word.now tokens.old) result tokens.new }
    ensures library { IfOk result (λ m. m.draft.library ≡ library) }
    ensures names { OnOk result (names.new ≡ names.old ++ word.now ∷ []) }
{
    if is_repeated(names, cells, word) {
        return Err(repeated(alloc, word));
    }
    names.add(Word::read(word))?;
    match module_behind(alloc, word, library, cells, tokens) {
        Ok(said) => Ok(said),
        Err(error) => Err(in_module(error)),
    }
}

#[tactic(auto, using(crate::proofs::SubLemmas::next_modules))]
/// The next module of a text behind those with these names, over the cells of a library, which are given once more. Its name
/// is one of these from here on.
pub fn next_module<'a>(
    alloc: Global,
    names: &mut NameSet<'a>,
    library: Library,
    cells: &Library,
    tokens: &mut Tokens<'a>,
) -> Result<SaidModule<'a>, ModulesReadError>
    requires { cells.now ≡ library }
    ensures read { reading.Reads (λ m. said m.draft m.subs.items) (texts.next_module library names.old tokens.old) result tokens.new }
    ensures library { IfOk result (λ m. m.draft.library ≡ library) }
    ensures names { OnOk result (names.new ≡ names.old ++ texts.name_ahead tokens.old ∷ []) }
{
    match module_name(tokens) {
        Ok(word) => next_named(alloc, word, names, library, cells, tokens),
        Err(error) => Err(in_module(error)),
    }
}
