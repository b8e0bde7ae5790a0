//! Each public type, made of its members as a caller makes it, from the crate that names it.

ghost use Rattle.std.specs.Prelude.{◌<◌};

use bool_lanes::Known;
use clock_map::ClockMap;
use clock_tree::Relation;
use lib_cells::Library;
use pin_types::ClockEdge;
use pin_types::Direction;
use pin_types::Edge;
use pin_types::Expr;
use pin_types::LibArc;
use pin_types::LibCell;
use pin_types::LibCheck;
use pin_types::LibPin;
use pin_types::ModeKind;
use pin_types::Node;
use pin_types::Pin;
use pin_types::Side;
use sdc_base::At;
use sdc_base::Bits;
use sdc_base::Channel;
use sdc_base::Fixed;
use sdc_base::List;
use sdc_base::MemInputs;
use sdc_base::MemOutputs;
use sdc_base::NamedBytes;
use sdc_base::NumberError;
use sdc_base::ReadStop;
use sdc_base::Refusal;
use sdc_base::SureInputs;
use sdc_base::SureOutputs;
use sdc_base::Text;
use sdc_cli::Fault;
use source_types::DesignKind;
use source_types::Kind;
use source_types::LibKind;
use source_types::SdcKind;
use source_types::TclKind;
use source_types::VerilogKind;
use tcl_words::Command;
use tcl_words::Next;
use tcl_words::Part;
use tcl_words::Word;
use timing_types::Arc;
use timing_types::ArcKind;
use timing_types::Arrivals;
use timing_types::Budget;
use timing_types::CaseSet;
use timing_types::CellInfo;
use timing_types::Check;
use timing_types::CheckStop;
use timing_types::Class;
use timing_types::ClassResult;
use timing_types::ClassSets;
use timing_types::Clock;
use timing_types::Constants;
use timing_types::Cycle;
use timing_types::Design;
use timing_types::Disable;
use timing_types::Early;
use timing_types::ExCommand;
use timing_types::Exception;
use timing_types::ExplainStop;
use timing_types::Finding;
use timing_types::FindingKind;
use timing_types::Form;
use timing_types::Given;
use timing_types::GivenPoints;
use timing_types::Graph;
use timing_types::IoDelay;
use timing_types::Kept;
use timing_types::KeyResult;
use timing_types::Latency;
use timing_types::Launched;
use timing_types::Left;
use timing_types::Listed;
use timing_types::MergeStop;
use timing_types::Merged;
use timing_types::Met;
use timing_types::Mode;
use timing_types::NetInfo;
use timing_types::Normal;
use timing_types::Note;
use timing_types::NoteKind;
use timing_types::Object;
use timing_types::Pair;
use timing_types::Path;
use timing_types::PathFacts;
use timing_types::Periods;
use timing_types::PinInfo;
use timing_types::Points;
use timing_types::Pool;
use timing_types::RelationResult;
use timing_types::Role;
use timing_types::Shape;
use timing_types::Sides;
use timing_types::Source;
use timing_types::Through;
use timing_types::Value;
use timing_types::View;
use timing_types::Wave;
use timing_types::Waves;
use verilog_net::Assign;
use verilog_net::Bit;
use verilog_net::Instance;
use verilog_net::Link;
use verilog_net::Links;
use verilog_net::Module;
use verilog_net::Port;
use verilog_net::Range;
use verilog_net::Wire;

// ---- listed under `sdc_base`

fn number_error_variants() -> [NumberError; 3] {
    [
        NumberError::NumberForm,
        NumberError::NumberRange,
        NumberError::DivideByZero,
    ]
}

fn read_stop_variants() -> [ReadStop; 3] {
    [ReadStop::Failed, ReadStop::TooLong, ReadStop::NoMemory]
}

fn refusal_variants() -> [Refusal; 2] {
    [Refusal::Failed, Refusal::NoMemory]
}

fn channel_variants() -> [Channel; 3] {
    [Channel::Report, Channel::Faults, Channel::Merged]
}

fn fixed(number: Fixed) -> (i128, bool) {
    (number.scaled, number.whole)
}

fn named_bytes(name: Text, bytes: List<u8>) -> NamedBytes {
    NamedBytes { name, bytes }
}

fn mem_inputs(
    files: List<NamedBytes>,
    fail: List<u64>,
    most: usize,
    calls: u64,
    faults: u64,
    name: Text,
    place: usize,
    begun: bool,
) -> MemInputs
    requires { 0 < most }
{
    MemInputs {
        files,
        fail,
        most,
        calls,
        faults,
        name,
        place,
        begun,
    }
}

fn sure_inputs(files: List<NamedBytes>, name: Text, place: usize) -> SureInputs {
    SureInputs { files, name, place }
}

fn mem_outputs(
    report: List<u8>,
    faults_text: List<u8>,
    merged: List<u8>,
    name: Text,
    fail: List<u64>,
    most: usize,
    calls: u64,
    faults: u64,
) -> MemOutputs
    requires { 0 < most }
{
    MemOutputs {
        report,
        faults_text,
        merged,
        name,
        fail,
        most,
        calls,
        faults,
    }
}

fn sure_outputs(
    report: List<u8>,
    faults_text: List<u8>,
    merged: List<u8>,
    name: Text,
) -> SureOutputs {
    SureOutputs {
        report,
        faults_text,
        merged,
        name,
    }
}

// ---- listed under `tcl_words`

fn command(line: u32, words: List<Word>) -> Command {
    Command { line, words }
}

fn word(parts: List<Part>) -> Word {
    Word { parts }
}

fn part_text(first: Text) -> Part {
    Part::Text(first)
}

fn part_variable(first: Text) -> Part {
    Part::Variable(first)
}

fn part_script(first: Text) -> Part {
    Part::Script(first)
}

fn next(command: Command, end: usize, line: u32) -> Next {
    Next { command, end, line }
}

// ---- listed under `bool_lanes`

fn known(mask: u16, value: u16) -> Known {
    Known { mask, value }
}

// ---- listed under `lib_cells`

fn library(unit: i64, cells: List<LibCell>) -> Library {
    Library { unit, cells }
}

// ---- listed under `verilog_net`

fn module(
    name: Text,
    line: u32,
    ports: List<Port>,
    nets: List<Wire>,
    instances: List<Instance>,
    assigns: List<Assign>,
) -> Module {
    Module {
        name,
        line,
        ports,
        nets,
        instances,
        assigns,
    }
}

fn range(left: u32, right: u32) -> Range {
    Range { left, right }
}

fn port(name: Text, direction: Direction, range: Option<Range>) -> Port {
    Port {
        name,
        direction,
        range,
    }
}

fn wire(name: Text, range: Option<Range>, tie: Option<bool>) -> Wire {
    Wire { name, range, tie }
}

fn instance(line: u32, kind: Text, name: Text, links: Links) -> Instance {
    Instance {
        line,
        kind,
        name,
        links,
    }
}

fn links_ordered(first: List<List<Bit>>) -> Links {
    Links::Ordered(first)
}

fn links_named(first: List<Link>) -> Links {
    Links::Named(first)
}

fn link(port: Text, bits: List<Bit>) -> Link {
    Link { port, bits }
}

fn assign(left: List<Bit>, right: List<Bit>) -> Assign {
    Assign { left, right }
}

fn bit_net(name: Text, index: Option<u32>) -> Bit {
    Bit::Net { name, index }
}

fn bit_constant(first: Option<bool>) -> Bit {
    Bit::Constant(first)
}

// ---- listed under `clock_tree`

fn relation(setup: i64, hold: i64) -> Relation {
    Relation { setup, hold }
}

// ---- listed under `clock_map`

fn clock_map(clocks: List<Clock>, waves: List<Wave>, maps: List<List<u32>>) -> ClockMap {
    ClockMap {
        clocks,
        waves,
        maps,
    }
}

// ---- listed under `sdc_cli`

fn fault(file: u32, line: u32, kind: Kind) -> Fault {
    Fault { file, line, kind }
}

// ---- plain types

fn pin(number: u32) -> Pin {
    Pin(number)
}

fn edge_variants() -> [Edge; 2] {
    [Edge::Rise, Edge::Fall]
}

fn side_variants() -> [Side; 2] {
    [Side::Setup, Side::Hold]
}

fn node(pin: Pin, edge: Edge) -> Node {
    Node { pin, edge }
}

fn clock_edge(clock: u32, edge: Edge) -> ClockEdge {
    ClockEdge { clock, edge }
}

fn role_variants() -> [Role; 5] {
    [
        Role::InPort,
        Role::OutPort,
        Role::CellIn,
        Role::CellOut,
        Role::CellOther,
    ]
}

fn source_variants() -> [Source; 3] {
    [Source::Nothing, Source::Zero, Source::One]
}

fn source_pin(first: Pin) -> Source {
    Source::Pin(first)
}

fn pin_info(name: Text, role: Role, cell: Option<u32>, lib_pin: u16, driver: Source) -> PinInfo {
    PinInfo {
        name,
        role,
        cell,
        lib_pin,
        driver,
    }
}

fn cell_info(name: Text, kind: u32, first: Pin, count: u16) -> CellInfo {
    CellInfo {
        name,
        kind,
        first,
        count,
    }
}

fn net_info(name: Text, source: Source) -> NetInfo {
    NetInfo { name, source }
}

fn design(
    top: Text,
    unit: i64,
    pins: List<PinInfo>,
    cells: List<CellInfo>,
    nets: List<NetInfo>,
    kinds: List<LibCell>,
) -> Design {
    Design {
        top,
        unit,
        pins,
        cells,
        nets,
        kinds,
    }
}

fn expr_variants() -> [Expr; 2] {
    [Expr::Zero, Expr::One]
}

fn expr_pin(first: u16) -> Expr {
    Expr::Pin(first)
}

fn direction_variants() -> [Direction; 3] {
    [Direction::Input, Direction::Output, Direction::Other]
}

fn lib_pin(name: Text, direction: Direction, function: Option<Expr>) -> LibPin {
    LibPin {
        name,
        direction,
        function,
    }
}

fn lib_arc(
    from: u16,
    to: u16,
    rise_rise: bool,
    rise_fall: bool,
    fall_rise: bool,
    fall_fall: bool,
    launch: bool,
) -> LibArc {
    LibArc {
        from,
        to,
        rise_rise,
        rise_fall,
        fall_rise,
        fall_fall,
        launch,
    }
}

fn lib_check(pin: u16, clock: u16, clock_edge: Edge, side: Side) -> LibCheck {
    LibCheck {
        pin,
        clock,
        clock_edge,
        side,
    }
}

fn lib_cell(
    name: Text,
    pins: List<LibPin>,
    arcs: List<LibArc>,
    checks: List<LibCheck>,
    refused: bool,
) -> LibCell {
    LibCell {
        name,
        pins,
        arcs,
        checks,
        refused,
    }
}

fn arc_kind_variants() -> [ArcKind; 3] {
    [ArcKind::Net, ArcKind::Cell, ArcKind::Launch]
}

fn arc(from: Node, to: Node, kind: ArcKind) -> Arc {
    Arc { from, to, kind }
}

fn check(end: Pin, clock: Node, side: Side) -> Check {
    Check { end, clock, side }
}

fn graph(pins: u32, arcs: List<Arc>, checks: List<Check>) -> Graph {
    Graph { pins, arcs, checks }
}

fn shape_divide(first: u32) -> Shape {
    Shape::Divide(first)
}

fn shape_multiply(first: u32) -> Shape {
    Shape::Multiply(first)
}

fn shape_edges(first: u32, second: u32, third: u32) -> Shape {
    Shape::Edges(first, second, third)
}

fn form_primary(wave: Wave) -> Form {
    Form::Primary { wave }
}

fn form_generated(source: Pin, master: Option<u32>, shape: Shape, invert: bool) -> Form {
    Form::Generated {
        source,
        master,
        shape,
        invert,
    }
}

fn wave(period: i64, rise: i64, fall: i64) -> Wave {
    Wave { period, rise, fall }
}

fn early(rise: i64, fall: i64) -> Early {
    Early { rise, fall }
}

fn latency(
    source_early: Early,
    source_late: Early,
    network_early: Early,
    network_late: Early,
) -> Latency {
    Latency {
        source_early,
        source_late,
        network_early,
        network_late,
    }
}

fn clock(
    line: u32,
    name: Text,
    sources: List<Pin>,
    form: Form,
    latency: Latency,
    setup_uncertainty: i64,
    hold_uncertainty: i64,
    propagated: bool,
) -> Clock {
    Clock {
        line,
        name,
        sources,
        form,
        latency,
        setup_uncertainty,
        hold_uncertainty,
        propagated,
    }
}

fn pair(first: u32, second: u32) -> Pair {
    Pair { first, second }
}

fn case_set(line: u32, pin: Pin, value: bool) -> CaseSet {
    CaseSet { line, pin, value }
}

fn disable_pin(line: u32, pin: Pin) -> Disable {
    Disable::Pin { line, pin }
}

fn disable_between(line: u32, from: Pin, to: Pin) -> Disable {
    Disable::Between { line, from, to }
}

fn io_delay(
    port: Pin,
    clock: ClockEdge,
    max_rise: Option<i64>,
    max_fall: Option<i64>,
    min_rise: Option<i64>,
    min_fall: Option<i64>,
) -> IoDelay {
    IoDelay {
        port,
        clock,
        max_rise,
        max_fall,
        min_rise,
        min_fall,
    }
}

fn ex_command_variants() -> [ExCommand; 3] {
    [
        ExCommand::FalsePath,
        ExCommand::Delay,
        ExCommand::Multicycle,
    ]
}

fn points_pins(first: Option<Edge>, second: List<Pin>) -> Points {
    Points::Pins(first, second)
}

fn points_clocks(first: Option<Edge>, second: List<u32>) -> Points {
    Points::Clocks(first, second)
}

fn through(edge: Option<Edge>, pins: List<Pin>) -> Through {
    Through { edge, pins }
}

fn exception(
    line: u32,
    command: ExCommand,
    side: Side,
    value: i64,
    by_launch: bool,
    last: Option<Edge>,
    from: Option<Points>,
    through: List<Through>,
    to: Option<Points>,
) -> Exception {
    Exception {
        line,
        command,
        side,
        value,
        by_launch,
        last,
        from,
        through,
        to,
    }
}

fn object_clock(first: u32) -> Object {
    Object::Clock(first)
}

fn object_port(first: Pin) -> Object {
    Object::Port(first)
}

fn object_pin(first: Pin) -> Object {
    Object::Pin(first)
}

fn object_cell(first: u32) -> Object {
    Object::Cell(first)
}

fn object_net(first: u32) -> Object {
    Object::Net(first)
}

fn value_text(first: Text) -> Value {
    Value::Text(first)
}

fn value_objects(first: List<Object>) -> Value {
    Value::Objects(first)
}

fn kept(line: u32, words: List<Value>) -> Kept {
    Kept { line, words }
}

fn note_kind_variants() -> [NoteKind; 3] {
    [NoteKind::NoEffect, NoteKind::NotAnEnd, NoteKind::NoClock]
}

fn note(line: u32, kind: NoteKind) -> Note {
    Note { line, kind }
}

fn mode(
    clocks: List<Clock>,
    exclusive: List<Pair>,
    cases: List<CaseSet>,
    disabled: List<Disable>,
    delays: List<IoDelay>,
    exceptions: List<Exception>,
    kept: List<Kept>,
    notes: List<Note>,
) -> Mode {
    Mode {
        clocks,
        exclusive,
        cases,
        disabled,
        delays,
        exceptions,
        kept,
        notes,
    }
}

fn path(nodes: List<Node>, launch: ClockEdge, capture: ClockEdge) -> Path {
    Path {
        nodes,
        launch,
        capture,
    }
}

fn path_facts(
    start: Node,
    last: Node,
    launch: ClockEdge,
    capture: ClockEdge,
    met: Bits,
) -> PathFacts {
    PathFacts {
        start,
        last,
        launch,
        capture,
        met,
    }
}

fn periods(launch: i64, capture: i64) -> Periods {
    Periods { launch, capture }
}

fn given(
    line: u32,
    command: ExCommand,
    sides: Sides,
    value: i64,
    by_launch: Option<bool>,
    last: Option<Edge>,
    from: Option<GivenPoints>,
    through: List<GivenPoints>,
    to: Option<GivenPoints>,
) -> Given {
    Given {
        line,
        command,
        sides,
        value,
        by_launch,
        last,
        from,
        through,
        to,
    }
}

fn sides_variants() -> [Sides; 4] {
    [Sides::Unsaid, Sides::Setup, Sides::Hold, Sides::Both]
}

fn given_points(edge: Option<Edge>, objects: List<Object>) -> GivenPoints {
    GivenPoints { edge, objects }
}

fn normal(exceptions: List<Exception>, not_an_end: bool) -> Normal {
    Normal {
        exceptions,
        not_an_end,
    }
}

fn cycle(nodes: List<Node>) -> Cycle {
    Cycle { nodes }
}

fn constants(values: List<Option<bool>>) -> Constants {
    Constants { values }
}

fn arrivals(at: List<List<ClockEdge>>) -> Arrivals {
    Arrivals { at }
}

fn waves(waves: List<Wave>, masters: List<Option<u32>>) -> Waves {
    Waves { waves, masters }
}

fn budget(limit: u64) -> Budget {
    Budget { limit }
}

fn pool(
    graph: Graph,
    order: List<Node>,
    alive: Bits,
    modes: List<Bits>,
    starts: List<Launched>,
    exceptions: List<Exception>,
) -> Pool {
    Pool {
        graph,
        order,
        alive,
        modes,
        starts,
        exceptions,
    }
}

fn launched(start: Node, launch: ClockEdge) -> Launched {
    Launched { start, launch }
}

fn class_sets(at: List<List<Class>>) -> ClassSets {
    ClassSets { at }
}

fn class(launch: ClockEdge, start: Node, modes: u16, progress: List<Met>) -> Class {
    Class {
        launch,
        start,
        modes,
        progress,
    }
}

fn met(exception: u32, lists: u8) -> Met {
    Met { exception, lists }
}

fn view(mode: Mode, waves: List<Wave>, arrivals: Arrivals, clock_map: List<u32>) -> View {
    View {
        mode,
        waves,
        arrivals,
        clock_map,
    }
}

fn key_result(
    start: Node,
    last: Node,
    launch: ClockEdge,
    capture: ClockEdge,
    side: Side,
    results: List<ClassResult>,
) -> KeyResult {
    KeyResult {
        start,
        last,
        launch,
        capture,
        side,
        results,
    }
}

fn class_result(class: u64, limits: List<Option<i64>>, winners: List<Option<u32>>) -> ClassResult {
    ClassResult {
        class,
        limits,
        winners,
    }
}

fn relation_result(
    end: Pin,
    launch: ClockEdge,
    capture: ClockEdge,
    side: Side,
    keys: List<u64>,
) -> RelationResult {
    RelationResult {
        end,
        launch,
        capture,
        side,
        keys,
    }
}

fn check_stop_mode(first: At<ModeKind>) -> CheckStop {
    CheckStop::Mode(first)
}

fn check_stop_loop(first: Cycle) -> CheckStop {
    CheckStop::Loop(first)
}

fn check_stop_budget(first: u64) -> CheckStop {
    CheckStop::Budget(first)
}

fn explain_stop_variants() -> [ExplainStop; 1] {
    [ExplainStop::NoEndpoint]
}

fn explain_stop_check(first: CheckStop) -> ExplainStop {
    ExplainStop::Check(first)
}

fn merged(mode: Mode, clocks: ClockMap, listed: List<Listed>, left: List<Left>) -> Merged {
    Merged {
        mode,
        clocks,
        listed,
        left,
    }
}

fn merge_stop_mode(first: u32, second: At<ModeKind>) -> MergeStop {
    MergeStop::Mode(first, second)
}

fn merge_stop_conflict(pin: Pin, source_mode: u32, passing_mode: u32) -> MergeStop {
    MergeStop::Conflict {
        pin,
        source_mode,
        passing_mode,
    }
}

fn merge_stop_loop(first: Cycle) -> MergeStop {
    MergeStop::Loop(first)
}

fn merge_stop_budget(first: u64) -> MergeStop {
    MergeStop::Budget(first)
}

fn listed(
    end: Pin,
    launch: ClockEdge,
    capture: ClockEdge,
    side: Side,
    path: List<Node>,
    merged: i64,
    required: Option<i64>,
) -> Listed {
    Listed {
        end,
        launch,
        capture,
        side,
        path,
        merged,
        required,
    }
}

fn left(mode: u32, line: u32, command: Text) -> Left {
    Left {
        mode,
        line,
        command,
    }
}

fn finding_kind_variants() -> [FindingKind; 8] {
    [
        FindingKind::NoEffect,
        FindingKind::NotAnEnd,
        FindingKind::NoClock,
        FindingKind::Unmatched,
        FindingKind::Shadowed,
        FindingKind::Unclocked,
        FindingKind::InputWithoutDelay,
        FindingKind::OutputWithoutDelay,
    ]
}

fn finding(kind: FindingKind, line: Option<u32>, pin: Option<Pin>) -> Finding {
    Finding { kind, line, pin }
}

fn kind_variants() -> [Kind; 3] {
    [Kind::NotText, Kind::TooLong, Kind::NoEndpoint]
}

fn kind_tcl(first: TclKind) -> Kind {
    Kind::Tcl(first)
}

fn kind_sdc(first: SdcKind) -> Kind {
    Kind::Sdc(first)
}

fn kind_lib(first: LibKind) -> Kind {
    Kind::Lib(first)
}

fn kind_verilog(first: VerilogKind) -> Kind {
    Kind::Verilog(first)
}

fn kind_design(first: DesignKind) -> Kind {
    Kind::Design(first)
}

fn kind_mode(first: ModeKind) -> Kind {
    Kind::Mode(first)
}

fn tcl_kind_variants() -> [TclKind; 8] {
    [
        TclKind::Unclosed,
        TclKind::ExtraAfterBrace,
        TclKind::BadWord,
        TclKind::UnknownVariable,
        TclKind::BadExpr,
        TclKind::WrongArgs,
        TclKind::TooDeep,
        TclKind::TooManyCommands,
    ]
}

fn tcl_kind_number(first: NumberError) -> TclKind {
    TclKind::Number(first)
}

fn sdc_kind_variants() -> [SdcKind; 8] {
    [
        SdcKind::UnknownCommand,
        SdcKind::BadOption,
        SdcKind::BadValue,
        SdcKind::OutOfProfile,
        SdcKind::ClockRedefined,
        SdcKind::ClockOverwritten,
        SdcKind::DelayRange,
        SdcKind::TooMany,
    ]
}

fn lib_kind_variants() -> [LibKind; 6] {
    [
        LibKind::NotText,
        LibKind::LibForm,
        LibKind::UnknownPin,
        LibKind::FunctionForm,
        LibKind::FunctionWide,
        LibKind::DoubleCell,
    ]
}

fn verilog_kind_variants() -> [VerilogKind; 6] {
    [
        VerilogKind::NotText,
        VerilogKind::VerilogForm,
        VerilogKind::InoutPort,
        VerilogKind::DoubleName,
        VerilogKind::WidthMismatch,
        VerilogKind::UnknownNet,
    ]
}

fn design_kind_variants() -> [DesignKind; 9] {
    [
        DesignKind::UnknownModule,
        DesignKind::ModuleCycle,
        DesignKind::UnsupportedCell,
        DesignKind::WidthMismatch,
        DesignKind::DoubleName,
        DesignKind::BadName,
        DesignKind::TwoDrivers,
        DesignKind::AssignCycle,
        DesignKind::TooMany,
    ]
}

fn mode_kind_variants() -> [ModeKind; 2] {
    [ModeKind::MasterCycle, ModeKind::PeriodRange]
}

fn mode_kind_case_conflict(pin: Pin, set: bool, derived: bool) -> ModeKind {
    ModeKind::CaseConflict { pin, set, derived }
}

fn mode_kind_master_unclear(count: u32) -> ModeKind {
    ModeKind::MasterUnclear { count }
}

fn mode_kind_not_exact(rest: i64) -> ModeKind {
    ModeKind::NotExact { rest }
}
