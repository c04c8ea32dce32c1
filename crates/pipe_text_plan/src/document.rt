// What a document says of a plan, by its keys.
ghost use Rattle.std.specs.Prelude.{◌≡◌, not, string_bytes, option_and_then, IfOk, Ok};
ghost use Rattle.std.specs.BTreeMap.{keys};
ghost use Rattle.std.specs.List.{list_any};
ghost use Rattle.toml.specs.Data.{as_integer};
ghost use Rattle.toml.specs.View.{table_view, view};
ghost use Rattle.pipe_text_plan.specs.Described.{keyed};
ghost use Rattle.pipe_text_plan.specs.Keys.{is_key, has_extra, patience_in, patience_at};
ghost use Rattle.pipe_text_plan.specs.Refused.{RefusesLike};
ghost use Rattle.pipe_text_plan.specs.Views.{document_view};

use crate::array::texts_at;
use crate::fault::{KeyName, PlanError, PlanFault};
use crate::patience::{PATIENCE, PATIENCE_LIMIT};
use std::alloc::Global;
use toml::{Table, Value};

// The texts of the four keys.
#[derive(Drop)]
pub struct Texts<'a> {
    pub hosts: Vec<&'a str>,
    pub switches: Vec<&'a str>,
    pub cables: Vec<&'a str>,
    pub patience: u64,
}

pub fn texts_of<'a>(alloc: Global, table: &'a Table) -> Result<Texts<'a>, PlanError>
    ensures ok { IfOk result (λ texts. keyed (table_view table.now) ≡ Ok (document_view texts)) }
    ensures fault { RefusesLike result (keyed (table_view table.now)) }
{
    if has_extra(table) {
        return Err(PlanError::Plan(PlanFault::Extra));
    }
    let Some(hosts) = texts_at(alloc, table, "hosts")? else {
        return Err(shape(KeyName::Hosts));
    };
    let Some(switches) = texts_at(alloc, table, "switches")? else {
        return Err(shape(KeyName::Switches));
    };
    let Some(cables) = texts_at(alloc, table, "cables")? else {
        return Err(shape(KeyName::Cables));
    };
    let Some(patience) = patience_at(table) else {
        return Err(shape(KeyName::Patience));
    };
    Ok(Texts {
        hosts,
        switches,
        cables,
        patience,
    })
}

fn shape(key: KeyName) -> PlanError
    ensures { result ≡ PlanError.Plan (PlanFault.Shape key) }
{
    PlanError::Plan(PlanFault::Shape { key })
}

fn has_extra(table: &Table) -> bool
    ensures { result ≡ has_extra (table_view table.now) }
{
    has_other_key(table)
}

fn has_other_key(table: &Table) -> bool
    ensures { result ≡ list_any (λ key. not (is_key (string_bytes key))) (keys table.now) }
{
    table.keys().any(|key| !is_key(key.as_str()))
}

fn is_key(key: &str) -> bool
    ensures { result ≡ is_key key.now }
{
    key == "hosts" || key == "switches" || key == "cables" || key == "patience"
}

fn patience_at(table: &Table) -> Option<u64>
    ensures { result ≡ patience_at (table_view table.now) }
{
    match table.get("patience") {
        Some(value) => patience_in(value),
        None => Some(PATIENCE),
    }
}

fn patience_in(value: &Value) -> Option<u64>
    ensures { result ≡ option_and_then patience_in (as_integer (view value.now)) }
{
    match value.as_integer() {
        Some(number) if 1 <= number && number <= PATIENCE_LIMIT as i64 => Some(number as u64),
        _ => None,
    }
}
