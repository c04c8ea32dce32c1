// Arrays of texts.
ghost use Rattle.std.specs.Prelude.{◌≡◌, map, option_map, option_and_then, IfOk};
ghost use Rattle.toml.specs.Data.{as_array, get_member};
ghost use Rattle.toml.specs.View.{array_view, table_view};
ghost use Rattle.pipe_text_plan.specs.Keys.{texts_at};
ghost use Rattle.pipe_text_plan.specs.Texts.{item_texts};

use pipe_base::NoMemory;
use std::alloc::Global;
use toml::Table;
use toml::value::Array;

// The texts of the array at a key. None where there is no array of texts.
pub fn texts_at<'a>(
    alloc: Global,
    table: &'a Table,
    key: &str,
) -> Result<Option<Vec<&'a str>>, NoMemory>
    ensures { IfOk result (λ found. option_map (λ texts. map (λ text. text.now) texts.items) found
        ≡ texts_at key.now (table_view table.now)) }
{
    match array_at(table, key) {
        Some(array) => item_texts(alloc, array),
        None => Ok(None),
    }
}

fn array_at<'a>(table: &'a Table, key: &str) -> Option<&'a Array>
    ensures { option_map (λ array. array_view array.now) result
        ≡ option_and_then as_array (get_member key.now (table_view table.now)) }
{
    match table.get(key) {
        Some(value) => value.as_array(),
        None => None,
    }
}

fn item_texts<'a>(alloc: Global, array: &'a Array) -> Result<Option<Vec<&'a str>>, NoMemory>
    ensures { IfOk result (λ found. option_map (λ texts. map (λ text. text.now) texts.items) found
        ≡ item_texts (array_view array.now)) }
{
    let mut texts = Vec::new(alloc);
    'items: for value in array {
        let Some(text) = value.as_str() else {
            return Ok(None);
        };
        texts.push(text)?;
    }
    Ok(Some(texts))
}
