// A topology part as names, plan and topology, or its first fault.
ghost use Rattle.std.specs.Prelude.{◌≡◌, ◌≤◌, ◌<◌, ◌^◌, ◌+◌, true, false, length, map, All, IfOk, IfErr, IfSome, Ok, Err};
ghost use Rattle.toml.specs.View.{table_view};
ghost use Rattle.pipe_text.specs.Words.{words_of};
ghost use Rattle.pipe_topo.specs.NodeNames.{has_dot};
ghost use Rattle.pipe_topo.specs.Plan.{HasEnds};
ghost use Rattle.pipe_text_plan.specs.declared.fault.PlanFault.{PlanFault as Fault};
ghost use Rattle.pipe_text_plan.specs.Described.{built, crowd, crowded, described, described_by, IsCountable, star_described, toml_described};
ghost use Rattle.pipe_text_plan.specs.Input.{IsInput};
ghost use Rattle.pipe_text_plan.specs.Keys.{document_of};
ghost use Rattle.pipe_text_plan.specs.Refused.{RefusesLike};
ghost use Rattle.pipe_text_plan.specs.Star.{star_of};
ghost use Rattle.pipe_text_plan.specs.Views.{division_view, document_view};

use crate::cable::cables_of;
use crate::division::Parts;
use crate::document::{Texts, texts_of};
use crate::fault::{PlanError, PlanFault};
use crate::number::{all_names, numbered};
use crate::star::{star_names, star_of};
use crate::switch::switches_of;
use pipe_base::{List, NoMemory, Ts};
use pipe_text::words_of;
use pipe_topo::{LevelList, Names, NodeNames, Plan, TopoFault, Topology, What};
use std::alloc::Global;
use toml::Table;

// The most items of an array that are numbered.
const ITEM_LIMIT: usize = 32767;

// The most items of an array that are counted.
const COUNT_LIMIT: usize = 4294967295;

/// A topology as it was read.
#[derive(Drop)]
pub struct PlanInput {
    /// The names of the nodes.
    pub names: NodeNames,
    pub plan: Plan,
    pub topology: Topology,
}

/// Reads the topology part of an input. Its first fault is refused: the line of a star has none but its form.
pub fn read_plan(alloc: Global, parts: &Parts<'_>) -> Result<PlanInput, PlanError>
    ensures ok { IfOk result (IsInput (described_by (division_view parts.now))) }
    ensures fault { RefusesLike result (described_by (division_view parts.now)) }
    ensures star { parts.now.star ≡ true
        → IfErr result (λ error. (fault : Fault) → error ≡ PlanError.Plan fault → fault ≡ PlanFault.Star) }
{
    if parts.star {
        read_star(alloc, parts.topology)
    } else {
        read_toml(alloc, parts.topology)
    }
}

fn read_star(alloc: Global, line: &[u8]) -> Result<PlanInput, PlanError>
    ensures ok { IfOk result (IsInput (star_described (star_of (words_of line.now)))) }
    ensures fault { RefusesLike result (star_described (star_of (words_of line.now))) }
    ensures star { IfErr result (λ error. (fault : Fault) → error ≡ PlanError.Plan fault → fault ≡ PlanFault.Star) }
{
    let words = words_of(alloc, line)?;
    let Some((hosts, patience)) = star_of(&words) else {
        return Err(PlanError::Plan(PlanFault::Star));
    };
    let names = star_names(alloc, hosts)?;
    let plan = Plan::star(alloc, hosts, Ts(patience))?;
    build(alloc, names, plan)
}

fn read_toml(alloc: Global, bytes: &[u8]) -> Result<PlanInput, PlanError>
    ensures ok { IfOk result (IsInput (toml_described (document_of bytes.now))) }
    ensures fault { RefusesLike result (toml_described (document_of bytes.now)) }
{
    let table = match read_table(alloc, bytes) {
        Ok(table) => table,
        Err(error) => return Err(error),
    };
    let texts = match texts_of(alloc, &table) {
        Ok(texts) => texts,
        Err(error) => return Err(error),
    };
    describe(alloc, &texts)
}

fn read_table(alloc: Global, bytes: &[u8]) -> Result<Table, PlanError>
    ensures ok { IfOk result (λ table. document_of bytes.now ≡ Some (table_view table)) }
    ensures fault { IfErr result (λ error. (fault : Fault) → error ≡ PlanError.Plan fault
        → (fault ≡ PlanFault.NotToml) × (document_of bytes.now ≡ None)) }
{
    let Ok(text) = std::str::from_utf8(bytes) else {
        return Err(PlanError::Plan(PlanFault::NotToml));
    };
    match toml::table_from_str(alloc, text) {
        Ok(table) => Ok(table),
        Err(error) if error.is_memory() => Err(PlanError::NoMemory),
        Err(_) => Err(PlanError::Plan(PlanFault::NotToml)),
    }
}

fn describe(alloc: Global, texts: &Texts<'_>) -> Result<PlanInput, PlanError>
    ensures ok { IfOk result (IsInput (described (document_view texts.now))) }
    ensures fault { RefusesLike result (described (document_view texts.now)) }
{
    if let Some(fault) = crowded(texts) {
        return Err(PlanError::Plan(PlanFault::Topo(fault)));
    }
    let switches = match switches_of(alloc, &texts.switches) {
        Ok(switches) => switches,
        Err(error) => return Err(error),
    };
    let all = all_names(alloc, &texts.hosts, &switches)?;
    let names = match numbered(alloc, &all) {
        Ok(names) => names,
        Err(error) => return Err(error),
    };
    let hosts = texts.hosts.len() as u16;
    let cables = match cables_of(alloc, hosts, &names, &texts.cables) {
        Ok(cables) => cables,
        Err(error) => return Err(error),
    };
    let plan = Plan {
        hosts,
        levels: levels_of(alloc, &switches)?,
        cables: List::from_vec(cables),
        patience: Ts(texts.patience),
    };
    build(alloc, names, plan)
}

// The first array with too many items to be numbered.
fn crowded(texts: &Texts<'_>) -> Option<TopoFault>
    ensures value { result ≡ crowded (document_view texts.now) }
    ensures few { result ≡ None → IsCountable (document_view texts.now) }
{
    if let Some(fault) = crowd(What::Hosts, texts.hosts.len()) {
        return Some(fault);
    }
    if let Some(fault) = crowd(What::Switches, texts.switches.len()) {
        return Some(fault);
    }
    crowd(What::Cables, texts.cables.len())
}

fn crowd(what: What, count: usize) -> Option<TopoFault>
    ensures { result ≡ crowd what count }
{
    if count <= ITEM_LIMIT {
        return None;
    }
    Some(TopoFault::TooMany {
        what,
        count: count.min(COUNT_LIMIT) as u32,
    })
}

fn levels_of(alloc: Global, switches: &[(&str, u8)]) -> Result<LevelList, NoMemory>
    ensures { IfOk result (λ levels. levels ≡ map (λ switch. switch.1) switches.now) }
{
    let mut levels = List::new(alloc);
    for (_, level) in switches {
        levels.push(*level)?;
    }
    Ok(levels)
}

// The plan's hosts have the first of the names, and its switches the others.
fn build(alloc: Global, names: Names, plan: Plan) -> Result<PlanInput, PlanError>
    requires dotless { All (λ name. has_dot name ≡ false) names }
    requires ends { HasEnds plan.hosts (length plan.levels) plan.cables }
    requires countable_levels { length plan.levels < 2 ^ 32 }
    requires countable_cables { length plan.cables < 2 ^ 32 }
    ensures ok { IfOk result (IsInput (built names plan)) }
    ensures fault { RefusesLike result (built names plan) }
{
    match Topology::build(alloc, &plan) {
        Ok(topology) => Ok(PlanInput {
            names: NodeNames::new(alloc, &names, plan.hosts)?,
            plan,
            topology,
        }),
        Err(TopoFault::NoMemory) => Err(PlanError::NoMemory),
        Err(fault) => Err(PlanError::Plan(PlanFault::Topo(fault))),
    }
}
