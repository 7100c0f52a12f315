//! Reads a netlist text that may have several modules (IEEE 1364, structural part).

ghost use Rattle.std.specs.Prelude.{◌≡◌, ◌≤◌, [], length, IfOk, IfErr};
ghost use Rattle.dft_lexing.specs.Reading as reading;
ghost use Rattle.dft_modules.specs.ModuleTexts as spec;
ghost use Rattle.dft_netlist_text.specs.Steps as steps;
ghost use Rattle.dft_netlist_text.specs.Steps.{left};
ghost use Rattle.dft_verilog.specs.ModuleRefusals.{IsModulesRefused, told_of, told_of_error};
ghost use Rattle.dft_verilog.specs.TextsSaid.{IsSaid, ReadsAlone, modules_in};
ghost use Rattle.dft_netlist_text.specs.Lexemes.{tokens};

use crate::error::{ModulesError, VerilogError};
use crate::modules::module_said;
use crate::places::unpassed;
use crate::telling::told;
use dft_cells::Library;
use dft_modules::{Module, ModulesFault};
use dft_netlist_text::TokenKind;
use dft_verilog_draft::{ModuleDraft, NameSet};
use dft_verilog_module::{ModulesReadError, in_module, next_module};
use dft_verilog_tokens::{MAX_TEXT, Tokens};
use std::alloc::Global;

/// What a netlist text says.
#[derive(Debug, Drop)]
pub enum TextSaid<'a> {
    /// One module alone, without module instances: the text means what it does where a text may have one module only.
    Alone(ModuleDraft<'a>),
    /// Its modules.
    Modules(Vec<Module>),
}

// Why no rule takes the next token of a text of several modules.
fn refusal(tokens: &Tokens<'_>) -> ModulesReadError
    ensures { reading.Faults (ModulesFault.Module (steps.refusal tokens.now)) result }
{
    in_module(tokens.refusal())
}

// What a text says from here to its end: a module that is the first and the last, and has no module instances, stays as it was read.
fn said_ahead<'a>(
    alloc: Global,
    text: &'a [u8],
    library: Library,
    cells: &Library,
    tokens: &mut Tokens<'a>,
) -> Result<TextSaid<'a>, ModulesReadError>
    requires few { length text.now ≤ MAX_TEXT }
    requires same { cells.now ≡ library }
    ensures read { reading.Reads (modules_in text.now) (spec.modules_from (left tokens.old) text.now cells.now [] [] tokens.old) result tokens.new }
    ensures alone { IfOk result (ReadsAlone cells.now tokens.old) }
{
    let mut names = NameSet::new(alloc);
    let mut passed = unpassed();
    let mut modules = Vec::new(alloc);
    let mut library = library;
    'turns: for _turn in 0..tokens.left() {
        let said = next_module(alloc, &mut names, library, cells, tokens)?;
        let ended = tokens.sees(TokenKind::End);
        if ended && modules.is_empty() && said.subs.is_empty() {
            return Ok(TextSaid::Alone(said.draft));
        }
        let made = module_said(alloc, text, &mut passed, &said)?;
        modules.push(made)?;
        if ended {
            return Ok(TextSaid::Modules(modules));
        }
        library = said.draft.into_library();
    }
    Err(refusal(tokens))
}

// How a fault of a text of several modules is told.
fn told_of_modules(bytes: &[u8], fault: ModulesFault) -> ModulesError
    requires { length bytes.now ≤ MAX_TEXT }
    ensures { result ≡ told_of bytes.now fault }
{
    match fault {
        ModulesFault::Module(fault) => ModulesError::Module(told(bytes, fault)),
        ModulesFault::Repeated(name) => ModulesError::Repeated { name },
    }
}

// How a text of several modules that was not read is told.
fn told_error(bytes: &[u8], error: ModulesReadError) -> ModulesError
    requires { length bytes.now ≤ MAX_TEXT }
    ensures { result ≡ told_of_error bytes.now error }
{
    match error {
        ModulesReadError::Fault(fault) => told_of_modules(bytes, fault),
        ModulesReadError::Memory(error) => ModulesError::Module(VerilogError::Memory(error)),
    }
}

#[tactic(auto, unfolding(dft_modules::specs::ModuleTexts::modules_of))]
// What a text says, over the cells of a library, which are given once more.
fn said_of<'a>(
    alloc: Global,
    bytes: &'a [u8],
    library: Library,
    cells: &Library,
) -> Result<TextSaid<'a>, ModulesReadError>
    requires few { length bytes.now ≤ MAX_TEXT }
    requires same { cells.now ≡ library }
    ensures read { reading.Checks (modules_in bytes.now) (spec.modules_of cells.now bytes.now) result }
    ensures alone { IfOk result (ReadsAlone cells.now (tokens bytes.now)) }
{
    said_ahead(alloc, bytes, library, cells, &mut Tokens::new(alloc, bytes))
}

// What a text says, over the cells of a library, which are given once more.
fn said_over<'a>(
    alloc: Global,
    bytes: &'a [u8],
    library: Library,
    cells: &Library,
) -> Result<TextSaid<'a>, ModulesError>
    requires few { length bytes.now ≤ MAX_TEXT }
    requires same { cells.now ≡ library }
    ensures said { IfOk result (IsSaid cells.now bytes.now) }
    ensures refused { IfErr result (λ error. IsModulesRefused cells.now bytes.now error) }
{
    match said_of(alloc, bytes, library, cells) {
        Ok(said) => Ok(said),
        Err(error) => Err(told_error(bytes, error)),
    }
}

/// What a netlist text says that may have several modules, over the cells of a library (IEEE 1364, structural part). An item that
/// begins with a name that no cell has is an instance of a module. A text with a fault is refused by its first, with the place
/// where the refused token begins; a name that is taken and one port, net or instance more than there may be are refused as the
/// netlist is. Or by the first module's name that an earlier module or a cell has.
pub fn read_text<'a>(
    alloc: Global,
    bytes: &'a [u8],
    library: &Library,
) -> Result<TextSaid<'a>, ModulesError>
    requires { length bytes.now ≤ MAX_TEXT }
    ensures said { IfOk result (IsSaid library.now bytes.now) }
    ensures refused { IfErr result (λ error. IsModulesRefused library.now bytes.now error) }
{
    match library.copy(alloc) {
        Ok(copy) => said_over(alloc, bytes, copy, library),
        Err(error) => Err(ModulesError::Module(VerilogError::Memory(error))),
    }
}
