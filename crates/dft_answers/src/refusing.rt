//! What the errors of readers, of a scan, of a compilation, of a made configuration, of a search and of a test of certificates come to.

ghost use Rattle.std.specs.Prelude.{◌≡◌, IfOk, Some, pos};
ghost use Rattle.dft_answers.specs.Refusals as spec;

use crate::answer::{Code, Refusal};
use dft_base::{Name, Place};
use dft_certify::CertifyError;
use dft_compile::CompileError;
use dft_config_text::ConfigError;
use dft_configuring::{ConfigureError, Limited};
use dft_cubes::{CubeError, MAX_CUBES};
use dft_hier::HierError;
use dft_library_text::LibraryError;
use dft_netlist::{Counted, NetlistError};
use dft_netlist_reader::DesignError;
use dft_report::ReportError;
use dft_report_reader::ReadError;
use dft_rules::RuleError;
use dft_scan::ScanError;
use dft_scan_frame::InsertError;
use dft_seeking::SeekError;
use dft_stil_text::StilError;
use dft_stitch::{Counted as Planned, StitchError};
use dft_verilog::{ModulesError, VerilogError};
use std::alloc::{AllocError, Global};

/// The refusal of a library.
pub fn library_refusal(error: LibraryError) -> Result<Refusal, AllocError>
    ensures { IfOk result (λ refusal. spec.library_refusal error ≡ Some refusal) }
{
    Ok(match error {
        LibraryError::NotToml => Refusal::plain(Code::L6),
        LibraryError::L1 { name } => Refusal::named(Code::L1, name),
        LibraryError::L2 { name } => Refusal::named(Code::L2, name),
        LibraryError::L3 { name } => Refusal::named(Code::L3, name),
        LibraryError::L4 { name } => Refusal::named(Code::L4, name),
        LibraryError::L5 { name } => Refusal::named(Code::L5, name),
        LibraryError::L7 { name } => Refusal::named(Code::L7, name),
        LibraryError::Memory(error) => return Err(error),
    })
}

/// The refusal of a netlist text that stands for no design.
pub fn design_refusal(alloc: Global, error: DesignError) -> Result<Refusal, AllocError>
    ensures { IfOk result (λ refusal. spec.design_refusal error ≡ Some refusal) }
{
    match error {
        DesignError::Text(error) => modules_refusal(alloc, error),
        DesignError::Modules(error) => hier_refusal(alloc, error),
    }
}

// The refusal of a netlist text, by the first fault of a module.
fn verilog_refusal(alloc: Global, error: VerilogError) -> Result<Refusal, AllocError>
    ensures { IfOk result (λ refusal. spec.verilog_refusal error ≡ Some refusal) }
{
    Ok(match error {
        VerilogError::V1 { place } => Refusal::placed(Code::V1, place),
        VerilogError::V2 { place } => Refusal::placed(Code::V2, place),
        VerilogError::V3 { place, name } => Refusal::worded(Code::V3, place, name),
        VerilogError::V5 { place, name } => Refusal::worded(Code::V5, place, name),
        VerilogError::V6 { place } => Refusal::placed(Code::V6, place),
        VerilogError::V7 { place } => Refusal::placed(Code::V7, place),
        VerilogError::V9 { place } => Refusal::placed(Code::V9, place),
        VerilogError::V10 { place } => Refusal::placed(Code::V10, place),
        VerilogError::V11 { place, name } => Refusal::worded(Code::V11, place, name),
        VerilogError::V12 { place, name } => Refusal::worded(Code::V12, place, name),
        VerilogError::Netlist(error) => return netlist_refusal(alloc, error),
        VerilogError::Memory(error) => return Err(error),
    })
}

// The refusal of a netlist text, which may have several modules.
fn modules_refusal(alloc: Global, error: ModulesError) -> Result<Refusal, AllocError>
    ensures { IfOk result (λ refusal. spec.modules_refusal error ≡ Some refusal) }
{
    match error {
        ModulesError::Module(error) => verilog_refusal(alloc, error),
        ModulesError::Repeated { name } => Ok(Refusal::named(Code::H1, name)),
    }
}

// The refusal of modules that have no flat design.
fn hier_refusal(alloc: Global, error: HierError) -> Result<Refusal, AllocError>
    ensures { IfOk result (λ refusal. spec.hier_refusal error ≡ Some refusal) }
{
    Ok(match error {
        HierError::H2 { name } => Refusal::named(Code::H2, name),
        HierError::H3 { name } => Refusal::named(Code::H3, name),
        HierError::H4 { count } => return tops_refusal(count),
        HierError::H5 { place, name } => Refusal::worded(Code::H5, place, name),
        HierError::Netlist(error) => return netlist_refusal(alloc, error),
        HierError::Memory(error) => return Err(error),
    })
}

// The refusal of another number of tops than one.
fn tops_refusal(count: usize) -> Result<Refusal, AllocError>
    ensures { IfOk result (λ refusal. refusal ≡ spec.measured Code.H4 (pos count)) }
{
    match i64::try_from(count) {
        Ok(count) => Ok(Refusal::measured(Code::H4, count)),
        Err(_past) => Err(AllocError),
    }
}

// The refusal of a netlist as a whole, or of a part of it.
fn netlist_refusal(alloc: Global, error: NetlistError) -> Result<Refusal, AllocError>
    ensures { IfOk result (λ refusal. spec.netlist_refusal error ≡ Some refusal) }
{
    Ok(match error {
        NetlistError::MultipleDrivers { net } => Refusal::named(Code::N1, net),
        NetlistError::Loop { net } => Refusal::named(Code::N2, net),
        NetlistError::DuplicateName { name } => Refusal::named(Code::N3, name),
        NetlistError::TooMany { what, limit } => {
            Refusal::numbered(Code::N4, counted_name(alloc, what)?, limit)
        }
        NetlistError::Memory(error) => return Err(error),
    })
}

// What is counted, by its name.
fn counted_name(alloc: Global, what: Counted) -> Result<Name, AllocError>
    ensures { IfOk result (λ name. name ≡ spec.counted_text what) }
{
    match what {
        Counted::Ports => Name::from_slice(alloc, b"ports"),
        Counted::Nets => Name::from_slice(alloc, b"nets"),
        Counted::Instances => Name::from_slice(alloc, b"instances"),
    }
}

/// The refusal of a pattern text, that is read or to be written.
pub fn stil_refusal(error: StilError) -> Result<Refusal, AllocError>
    ensures { IfOk result (λ refusal. spec.stil_refusal error ≡ Some refusal) }
{
    Ok(match error {
        StilError::P1 { place } => Refusal::placed(Code::P1, place),
        StilError::P2 { place, name } => Refusal::worded(Code::P2, place, name),
        StilError::P3 { place, name } => Refusal::worded(Code::P3, place, name),
        StilError::P4 { place } => Refusal::placed(Code::P4, place),
        StilError::P5 { place } => Refusal::placed(Code::P5, place),
        StilError::P6 { first } => Refusal::measured(Code::P6, first),
        StilError::P8 { place } => Refusal::placed(Code::P8, place),
        StilError::P9 { place, name } => Refusal::worded(Code::P9, place, name),
        StilError::P10 { name, first } => Refusal::numbered(Code::P10, name, first),
        StilError::Memory(error) => return Err(error),
    })
}

/// The refusal of a configuration.
pub fn config_refusal(error: ConfigError) -> Result<Refusal, AllocError>
    ensures { IfOk result (λ refusal. spec.config_refusal error ≡ Some refusal) }
{
    Ok(match error {
        ConfigError::C1 => Refusal::plain(Code::C1),
        ConfigError::C2 { name } => Refusal::named(Code::C2, name),
        ConfigError::C3 { name, first } => Refusal::numbered(Code::C3, name, first),
        ConfigError::C4 { name } => Refusal::named(Code::C4, name),
        ConfigError::C5 { first } => Refusal::measured(Code::C5, first),
        ConfigError::C6 { name } => Refusal::named(Code::C6, name),
        ConfigError::Memory(error) => return Err(error),
    })
}

/// The refusal of a scan.
pub fn scan_refusal(alloc: Global, error: ScanError) -> Result<Refusal, AllocError>
    ensures { IfOk result (λ refusal. spec.scan_refusal error ≡ Some refusal) }
{
    match error {
        ScanError::Rules(error) => rule_refusal(error),
        ScanError::Stitch(error) => stitch_refusal(alloc, error),
        ScanError::Insert(error) => insert_refusal(alloc, error),
        ScanError::Report(error) => report_refusal(error),
        ScanError::Memory(error) => Err(error),
    }
}

/// The refusal of a cube file.
pub fn cube_refusal(error: CubeError) -> Result<Refusal, AllocError>
    ensures { IfOk result (λ refusal. spec.cube_refusal error ≡ Some refusal) }
{
    Ok(match error {
        CubeError::Q1 { place } => Refusal::placed(Code::Q1, place),
        CubeError::Q2 { place, name } => Refusal::worded(Code::Q2, place, name),
        CubeError::Q3 { place, name } => Refusal::worded(Code::Q3, place, name),
        CubeError::Q4 { place, name } => Refusal::worded(Code::Q4, place, name),
        CubeError::Q5 { place, name } => Refusal::worded(Code::Q5, place, name),
        CubeError::Q6 { place, name } => Refusal::worded(Code::Q6, place, name),
        CubeError::Q7 { place } => Refusal::placed(Code::Q7, place),
        CubeError::Q8 { place, name } => Refusal::worded(Code::Q8, place, name),
        CubeError::Q9 { place } => Refusal::placed(Code::Q9, place),
        CubeError::Memory(error) => return Err(error),
    })
}

/// The refusal of a compilation.
pub fn compile_refusal(alloc: Global, error: CompileError) -> Result<Refusal, AllocError>
    ensures { IfOk result (λ refusal. spec.compile_refusal error ≡ Some refusal) }
{
    match error {
        CompileError::Rules(error) => rule_refusal(error),
        CompileError::Stitch(error) => stitch_refusal(alloc, error),
        CompileError::Insert(error) => insert_refusal(alloc, error),
        CompileError::Patterns(error) => stil_refusal(error),
        CompileError::Report(error) => report_refusal(error),
        CompileError::Memory(error) => Err(error),
    }
}

/// The refusal of a made configuration.
pub fn configure_refusal(alloc: Global, error: ConfigureError) -> Result<Refusal, AllocError>
    ensures { IfOk result (λ refusal. spec.configure_refusal error ≡ Some refusal) }
{
    match error {
        ConfigureError::NoClock => Ok(Refusal::plain(Code::X2)),
        ConfigureError::TooMany { what, most } => Ok(Refusal::numbered(
            Code::X3,
            limited_name(alloc, what)?,
            most,
        )),
        ConfigureError::Rules(error) => rule_refusal(error),
        ConfigureError::NoRing => Ok(Refusal::plain(Code::X4)),
        ConfigureError::LongText { first } => Ok(Refusal::measured(Code::K6, first)),
        ConfigureError::Stitch(error) => stitch_refusal(alloc, error),
        ConfigureError::Insert(error) => insert_refusal(alloc, error),
        ConfigureError::Memory(error) => Err(error),
    }
}

/// The refusal of the cubes of a search.
pub fn seek_refusal(alloc: Global, error: SeekError) -> Result<Refusal, AllocError>
    ensures { IfOk result (λ refusal. spec.seek_refusal error ≡ Some refusal) }
{
    match error {
        SeekError::TooManyCubes => Ok(Refusal::numbered(
            Code::N4,
            Name::from_slice(alloc, b"cubes")?,
            MAX_CUBES as i64,
        )),
        SeekError::LongCubes { first } => Ok(Refusal::measured(Code::K6, first)),
        SeekError::LongReport { first } => Ok(Refusal::measured(Code::K6, first)),
        SeekError::Memory(error) => Err(error),
    }
}

// What is limited, by its name.
fn limited_name(alloc: Global, what: Limited) -> Result<Name, AllocError>
    ensures { IfOk result (λ name. name ≡ spec.limited_text what) }
{
    match what {
        Limited::Chains => Name::from_slice(alloc, b"chains"),
        Limited::Outputs => Name::from_slice(alloc, b"outputs"),
        Limited::Masks => Name::from_slice(alloc, b"masks"),
    }
}

// The refusal of the scan rules.
fn rule_refusal(error: RuleError) -> Result<Refusal, AllocError>
    ensures { IfOk result (λ refusal. spec.rule_refusal error ≡ Some refusal) }
{
    Ok(match error {
        RuleError::ClockAsData { net } => Refusal::named(Code::G1, net),
        RuleError::ScanCellPresent { instance } => Refusal::named(Code::G2, instance),
        RuleError::TooFewCells { found, wanted } => Refusal::paired(Code::G3, found, wanted),
        RuleError::UnknownName { name } => Refusal::named(Code::G4, name),
        RuleError::LockupPresent { instance } => Refusal::named(Code::G5, instance),
        RuleError::PortName { name } => Refusal::named(Code::G7, name),
        RuleError::Memory(error) => return Err(error),
    })
}

// The refusal of a plan.
fn stitch_refusal(alloc: Global, error: StitchError) -> Result<Refusal, AllocError>
    ensures { IfOk result (λ refusal. spec.stitch_refusal error ≡ Some refusal) }
{
    match error {
        StitchError::TooMany { what, limit } => Ok(Refusal::numbered(
            Code::N4,
            planned_name(alloc, what)?,
            limit,
        )),
        StitchError::Memory(error) => Err(error),
    }
}

// What a plan counts, by its name.
fn planned_name(alloc: Global, what: Planned) -> Result<Name, AllocError>
    ensures { IfOk result (λ name. name ≡ spec.planned_text what) }
{
    match what {
        Planned::Cells => Name::from_slice(alloc, b"cells"),
        Planned::Cycles => Name::from_slice(alloc, b"cycles"),
        Planned::Variables => Name::from_slice(alloc, b"variables"),
    }
}

// The refusal of an insertion.
fn insert_refusal(alloc: Global, error: InsertError) -> Result<Refusal, AllocError>
    ensures { IfOk result (λ refusal. spec.insert_refusal error ≡ Some refusal) }
{
    match error {
        InsertError::NameClash { name } => Ok(Refusal::named(Code::G6, name)),
        InsertError::TooMany { what, limit } => Ok(Refusal::numbered(
            Code::N4,
            counted_name(alloc, what)?,
            limit,
        )),
        InsertError::Memory(error) => Err(error),
    }
}

/// The refusal of a report that is not written.
pub fn report_refusal(error: ReportError) -> Result<Refusal, AllocError>
    ensures { IfOk result (λ refusal. spec.report_refusal error ≡ Some refusal) }
{
    match error {
        ReportError::K6 { first } => Ok(Refusal::measured(Code::K6, first)),
        ReportError::Memory(error) => Err(error),
    }
}

/// The refusal of a report's text.
pub fn read_refusal(error: ReadError) -> Result<Refusal, AllocError>
    ensures { IfOk result (λ refusal. spec.read_refusal error ≡ Some refusal) }
{
    match error {
        ReadError::K1 { place } => Ok(Refusal::placed(Code::K1, place)),
        ReadError::Memory(error) => Err(error),
    }
}

/// The refusal of a report's certificates.
pub fn certify_refusal(error: CertifyError) -> Result<Refusal, AllocError>
    ensures { IfOk result (λ refusal. spec.certify_refusal error ≡ Some refusal) }
{
    Ok(match error {
        CertifyError::K2 { place, name } => Refusal::worded(Code::K2, place, name),
        CertifyError::K3 { name } => Refusal::named(Code::K3, name),
        CertifyError::K4 { place, name } => Refusal::worded(Code::K4, place, name),
        CertifyError::K5 { name } => Refusal::named(Code::K5, name),
        CertifyError::Memory(error) => return Err(error),
    })
}
