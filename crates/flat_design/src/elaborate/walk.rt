//! The walk over the modules that a design instantiates, each walked once: the first fault of an instance, or the
//! modules in an order in which each stands after those that it instantiates.

ghost use Rattle.std.specs.Prelude.{◌≡◌, ◌<◌, drop, length, replicate, IfOk};
ghost use Rattle.std.specs.List.{All};
ghost use Rattle.sdc_base.specs.Gives.{Meets};
ghost use Rattle.flat_design.specs.Walk.{IsWalked, IsWithin, frame, halt_at, halt_entering, halt_from, steps_of};
ghost use Rattle.flat_design.specs.declared.elaborate.walk.Mark.TheVariants as mark;

use sdc_base::{List, NoMemory, Stop};
use source_types::DesignKind;
use std::alloc::Global;
use std::collections::VecDeque;

/// What an instance is, as far as its module alone tells.
#[derive(Clone, Copy, Debug)]
pub(crate) enum Step {
    /// An instance with a fault of its own.
    Fault(DesignKind),
    /// An instance of a library cell, by its place.
    Cell(usize),
    /// An instance of a module, by its place, and whether its connections fit.
    Enter { opened: usize, fits: bool },
}

/// The fault of an instance, by the places of its module and of itself in there.
#[derive(Clone, Copy, Debug)]
pub(crate) struct FaultAt {
    pub(crate) body: usize,
    pub(crate) instance: usize,
    pub(crate) kind: DesignKind,
}

/// How far a module was walked.
#[derive(Clone, Copy, Debug)]
enum Mark {
    New,
    Open,
    Closed,
}

/// What stops the walk through the instances of a module.
#[derive(Clone, Copy, Debug)]
enum Halt {
    /// An instance has a fault.
    Fault { instance: usize, kind: DesignKind },
    /// An instance is of a module that was not walked yet.
    Open { instance: usize, opened: usize },
    /// There are no more instances.
    End,
}

/// A module that is being walked, and the place of the instance that is walked next, or whose module is being walked.
#[derive(Clone, Copy, Debug)]
struct Frame {
    body: usize,
    next: usize,
}

/// The first fault of the instances of a design with this top module, or the modules that it uses, each after those
/// that it instantiates. Modules are given by the steps of their instances.
pub(crate) fn walk(
    alloc: Global,
    all: &[List<Step>],
    top: usize,
) -> Result<List<usize>, Stop<FaultAt>>
    requires top { top < length all.now }
    requires within { All (All (IsWithin (length all.now))) all.now }
    ensures { Meets result (IsWalked all.now top) }
{
    let mut marks = new_marks(alloc, all.len())?;
    let mut order = Vec::new(alloc);
    let mut stack = VecDeque::new(alloc);
    marks[top] = Mark::Open;
    stack.push_front(first_frame(top))?;
    while let Some(frame) = stack.pop_front() {
        let Frame { body, .. } = frame;
        match halt_in(all, &marks, frame) {
            Halt::Fault { instance, kind } => {
                return Err(Stop::Refused(FaultAt {
                    body,
                    instance,
                    kind,
                }));
            }
            Halt::Open { instance, opened } => {
                let next = instance;
                stack.push_front(Frame { body, next })?;
                stack.push_front(first_frame(opened))?;
                marks[opened] = Mark::Open;
            }
            Halt::End => {
                marks[body] = Mark::Closed;
                order.push(body)?;
            }
        }
    }
    Ok(List::from(order))
}

/// As many modules that were not walked yet.
fn new_marks(alloc: Global, count: usize) -> Result<Vec<Mark>, NoMemory>
    ensures { IfOk result (λ marks. marks.items ≡ replicate count mark.New) }
{
    Ok(vec![in alloc; Mark::New; count]?)
}

/// A module whose instances are all still to be walked.
fn first_frame(body: usize) -> Frame
    ensures { result ≡ frame body 0 }
{
    Frame { body, next: 0 }
}

/// What stops the walk through the instances of a module that is being walked.
fn halt_in(all: &[List<Step>], marks: &[Mark], frame: Frame) -> Halt
    requires body { frame.body < length all.now }
    requires within { All (All (IsWithin (length marks.now))) all.now }
    ensures { result ≡ halt_from marks.now frame.next (drop frame.next (steps_of all.now frame.body)) }
{
    scan(all[frame.body].as_slice(), marks, frame.next)
}

/// What stops the walk through the instances of a module from a place on.
fn scan(steps: &[Step], marks: &[Mark], from: usize) -> Halt
    requires { All (IsWithin (length marks.now)) steps.now }
    ensures { result ≡ halt_from marks.now from (drop from steps.now) }
{
    for instance in from..steps.len() {
        if let Some(halt) = halt_at(marks, instance, steps[instance]) {
            return halt;
        }
    }
    Halt::End
}

/// What stops the walk at an instance, where something does.
fn halt_at(marks: &[Mark], instance: usize, step: Step) -> Option<Halt>
    requires { IsWithin (length marks.now) step }
    ensures { result ≡ halt_at marks.now instance step }
{
    match step {
        Step::Fault(kind) => Some(Halt::Fault { instance, kind }),
        Step::Cell(_) => None,
        Step::Enter { opened, fits } => halt_entering(marks[opened], instance, opened, fits),
    }
}

/// What stops the walk at an instance of a module that was walked so far.
fn halt_entering(mark: Mark, instance: usize, opened: usize, fits: bool) -> Option<Halt>
    ensures { result ≡ halt_entering mark instance opened fits }
{
    match (mark, fits) {
        (Mark::Open, _) => Some(Halt::Fault {
            instance,
            kind: DesignKind::ModuleCycle,
        }),
        (_, false) => Some(Halt::Fault {
            instance,
            kind: DesignKind::WidthMismatch,
        }),
        (Mark::New, true) => Some(Halt::Open { instance, opened }),
        (Mark::Closed, true) => None,
    }
}
