// What is wrong with a topology, and the words for it.

ghost use Rattle.std.specs.Prelude.{◌≡◌};
ghost use Rattle.pipe_text_plan.specs.FaultWords.{key_words, what_words};

use pipe_base::NoMemory;
use pipe_topo::{TopoFault, What};
use std::alloc::AllocFailed;
use std::fmt;

/// The keys of a plan.
#[derive(Clone, Copy, Debug, PartialEq, Eq)]
pub enum KeyName {
    Hosts,
    Switches,
    Cables,
    Patience,
}

/// The first fault of a topology part. Places are counted from 0. It is shown in the words that are printed for it.
#[derive(Clone, Copy, Debug, PartialEq, Eq)]
pub enum PlanFault {
    /// No line is the mark.
    NoMark,
    /// The line of a star has another form.
    Star,
    /// What is before the mark is not UTF-8 or no TOML.
    NotToml,
    /// There is a key of another name.
    Extra,
    /// The key is missing, or its value is of another type or out of range.
    Shape { key: KeyName },
    /// The name is none, or was there before; the hosts' names are counted first and then the switches'.
    Name { at: u16 },
    /// The text is not a name, one space and a level.
    SwitchText { at: u16 },
    /// The text is not two names of the plan with one space between.
    CableText { at: u16 },
    /// The plan is none of a topology; never `TopoFault::NoMemory`.
    Topo(TopoFault),
}

/// Why no plan was read.
#[derive(Clone, Copy, Debug, PartialEq, Eq)]
pub enum PlanError {
    Plan(PlanFault),
    NoMemory,
}

impl From<NoMemory> for PlanError {
    ghost use Rattle.std.specs.Prelude.{◌≡◌};
    ghost use Rattle.pipe_text_plan.specs.declared.fault.PlanError.TheVariants.{NoMemory};

    ghost from_gives = { λ _ e. e ≡ NoMemory };

    fn from(_: NoMemory) -> Self {
        PlanError::NoMemory
    }
}

impl<T: Drop> From<AllocFailed<T>> for PlanError {
    ghost use Rattle.std.specs.Prelude.{◌≡◌};
    ghost use Rattle.pipe_text_plan.specs.declared.fault.PlanError.TheVariants.{NoMemory};

    ghost from_gives = { λ _ e. e ≡ NoMemory };

    fn from(_: AllocFailed<T>) -> Self {
        PlanError::NoMemory
    }
}

fn key_words(key: KeyName) -> &'static str
    ensures { result.now ≡ key_words key }
{
    match key {
        KeyName::Hosts => "hosts",
        KeyName::Switches => "switches",
        KeyName::Cables => "cables",
        KeyName::Patience => "patience",
    }
}

fn what_words(what: What) -> &'static str
    ensures { result.now ≡ what_words what }
{
    match what {
        What::Hosts => "hosts",
        What::Switches => "switches",
        What::Cables => "cables",
    }
}

// A fault of a topology, as it is printed.
#[derive(Clone, Copy)]
struct Shown(TopoFault);

impl fmt::Display for Shown {
    ghost use Rattle.std.specs.Prelude.{Some};
    ghost use Rattle.pipe_text_plan.specs.FaultWords.{topo_words};

    ghost output = { λ shown. Some (topo_words shown.0) };

    fn fmt<W: fmt::Write>(&self, f: &mut fmt::Formatter<W>) -> fmt::Result {
        match self.0 {
            TopoFault::NoHost => f.write_str("no host"),
            TopoFault::TooMany { what, count } => {
                let kind = what_words(what);
                write!(f, "too many {kind} {count}")
            }
            TopoFault::Level { cable } => write!(f, "level of cable {cable}"),
            TopoFault::DoubleCable { cable } => write!(f, "cable {cable} twice"),
            TopoFault::Idle { switch } => write!(f, "idle switch {switch}"),
            TopoFault::Apart { a, b } => write!(f, "apart {a} {b}"),
            TopoFault::NoMemory => f.write_str("no memory"),
        }
    }
}

impl fmt::Display for PlanFault {
    ghost use Rattle.std.specs.Prelude.{Some};
    ghost use Rattle.pipe_text_plan.specs.FaultWords.{fault_words};

    ghost output = { λ fault. Some (fault_words fault) };

    fn fmt<W: fmt::Write>(&self, f: &mut fmt::Formatter<W>) -> fmt::Result {
        match self {
            PlanFault::NoMark => f.write_str("no mark"),
            PlanFault::Star => f.write_str("star"),
            PlanFault::NotToml => f.write_str("not toml"),
            PlanFault::Extra => f.write_str("unknown key"),
            PlanFault::Shape { key } => {
                let word = key_words(*key);
                write!(f, "key {word}")
            }
            PlanFault::Name { at } => write!(f, "name {at}"),
            PlanFault::SwitchText { at } => write!(f, "switch {at}"),
            PlanFault::CableText { at } => write!(f, "cable {at}"),
            PlanFault::Topo(fault) => {
                let shown = Shown(*fault);
                write!(f, "{shown}")
            }
        }
    }
}
