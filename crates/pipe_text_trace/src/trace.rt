// The text of a trace.
ghost use Rattle.std.specs.Prelude.{◌≡◌, ◌++◌, [], ◌∷◌, codes, decimal, IfOk, OnOk};
ghost use Rattle.pipe_text_trace.specs.Line.{lines_text};
ghost use Rattle.pipe_text_trace.specs.TraceText.{records_lines, trace_text};

use crate::record::print_record;
use crate::word::{Appended, print_first_word, print_line_end, print_number};
use pipe_base::{List, NoMemory};
use pipe_model::{Record, Trace};
use pipe_text::Text;
use pipe_topo::NodeNames;
use std::alloc::Global;

fn print_head(out: &mut Vec<u8>, records: usize) -> Appended
    ensures { OnOk result (out.new.items ≡ out.old.items ++ lines_text ((codes "trace" ∷ decimal records ∷ []) ∷ [])) }
{
    print_first_word(out, b"trace")?;
    print_number(out, records)?;
    print_line_end(out)
}

fn print_records(out: &mut Vec<u8>, names: &NodeNames, records: &[Record]) -> Appended
    ensures { OnOk result (out.new.items ≡ out.old.items ++ lines_text (records_lines names.now 0 records.now)) }
{
    'records: for (at, record) in records.iter().enumerate() {
        print_record(out, names, at, record)?;
    }
    Ok(())
}

fn print_last_line(out: &mut Vec<u8>) -> Appended
    ensures { OnOk result (out.new.items ≡ out.old.items ++ lines_text ((codes "end" ∷ []) ∷ [])) }
{
    print_first_word(out, b"end")?;
    print_line_end(out)
}

/// All that happened, record by record, in one pass. The names of the `hosts` hosts come first; a name that is not there is
/// empty.
pub fn print_trace(alloc: Global, names: &NodeNames, trace: &Trace) -> Result<Text, NoMemory>
    ensures { IfOk result (λ text. text ≡ trace_text names.now trace.now) }
{
    let mut out = Vec::new(alloc);
    print_head(&mut out, trace.len())?;
    print_records(&mut out, names, trace.as_slice())?;
    print_last_line(&mut out)?;
    Ok(List::from_vec(out))
}
