//! The names of the kinds of fault, as fault lines have them. This project's own rule: a name is no message, and is
//! never translated or changed, so that scripts can look for it.

ghost use Rattle.std.specs.Prelude.{◌≡◌};
ghost use Rattle.sdc_model.specs.FaultLine.{design_name, kind_name, lib_name, mode_name, sdc_name, tcl_name, verilog_name};

use pin_types::ModeKind;
use source_types::{DesignKind, Kind, LibKind, SdcKind, TclKind, VerilogKind};

/// The name of a kind in its group, or its own where it is in none.
pub(crate) fn kind_name(kind: Kind) -> &'static str
    ensures { result.now ≡ kind_name kind }
{
    match kind {
        Kind::Tcl(of_tcl) => tcl_name(of_tcl),
        Kind::Sdc(of_sdc) => sdc_name(of_sdc),
        Kind::Lib(of_lib) => lib_name(of_lib),
        Kind::Verilog(of_verilog) => verilog_name(of_verilog),
        Kind::Design(of_design) => design_name(of_design),
        Kind::Mode(of_mode) => mode_name(of_mode),
        Kind::NotText => "NotText",
        Kind::TooLong => "TooLong",
        Kind::NoEndpoint => "NoEndpoint",
    }
}

fn tcl_name(kind: TclKind) -> &'static str
    ensures { result.now ≡ tcl_name kind }
{
    match kind {
        TclKind::Unclosed => "Unclosed",
        TclKind::ExtraAfterBrace => "ExtraAfterBrace",
        TclKind::BadWord => "BadWord",
        TclKind::UnknownVariable => "UnknownVariable",
        TclKind::BadExpr => "BadExpr",
        TclKind::WrongArgs => "WrongArgs",
        TclKind::Number(_) => "Number",
        TclKind::TooDeep => "TooDeep",
        TclKind::TooManyCommands => "TooManyCommands",
    }
}

fn sdc_name(kind: SdcKind) -> &'static str
    ensures { result.now ≡ sdc_name kind }
{
    match kind {
        SdcKind::UnknownCommand => "UnknownCommand",
        SdcKind::BadOption => "BadOption",
        SdcKind::BadValue => "BadValue",
        SdcKind::OutOfProfile => "OutOfProfile",
        SdcKind::ClockRedefined => "ClockRedefined",
        SdcKind::ClockOverwritten => "ClockOverwritten",
        SdcKind::DelayRange => "DelayRange",
        SdcKind::TooMany => "TooMany",
    }
}

fn lib_name(kind: LibKind) -> &'static str
    ensures { result.now ≡ lib_name kind }
{
    match kind {
        LibKind::NotText => "NotText",
        LibKind::LibForm => "LibForm",
        LibKind::UnknownPin => "UnknownPin",
        LibKind::FunctionForm => "FunctionForm",
        LibKind::FunctionWide => "FunctionWide",
        LibKind::DoubleCell => "DoubleCell",
    }
}

fn verilog_name(kind: VerilogKind) -> &'static str
    ensures { result.now ≡ verilog_name kind }
{
    match kind {
        VerilogKind::NotText => "NotText",
        VerilogKind::VerilogForm => "VerilogForm",
        VerilogKind::InoutPort => "InoutPort",
        VerilogKind::DoubleName => "DoubleName",
        VerilogKind::WidthMismatch => "WidthMismatch",
        VerilogKind::UnknownNet => "UnknownNet",
    }
}

fn design_name(kind: DesignKind) -> &'static str
    ensures { result.now ≡ design_name kind }
{
    match kind {
        DesignKind::UnknownModule => "UnknownModule",
        DesignKind::ModuleCycle => "ModuleCycle",
        DesignKind::UnsupportedCell => "UnsupportedCell",
        DesignKind::WidthMismatch => "WidthMismatch",
        DesignKind::DoubleName => "DoubleName",
        DesignKind::BadName => "BadName",
        DesignKind::TwoDrivers => "TwoDrivers",
        DesignKind::AssignCycle => "AssignCycle",
        DesignKind::TooMany => "TooMany",
    }
}

fn mode_name(kind: ModeKind) -> &'static str
    ensures { result.now ≡ mode_name kind }
{
    match kind {
        ModeKind::CaseConflict { .. } => "CaseConflict",
        ModeKind::MasterUnclear { .. } => "MasterUnclear",
        ModeKind::MasterCycle => "MasterCycle",
        ModeKind::NotExact { .. } => "NotExact",
        ModeKind::PeriodRange => "PeriodRange",
    }
}
