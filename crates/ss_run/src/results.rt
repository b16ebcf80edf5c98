//! The results of a run: the values of some measures in its last state, as comma-separated values.
ghost use Rattle.std.specs.Prelude.{◌≡◌, ◌++◌, [], map, IfOk, OnOk};
ghost use Rattle.csv.specs.Records.{fields_of, partial_of};
ghost use Rattle.ss_machine.specs.Moment.{position};
ghost use Rattle.ss_check.specs.Asked.{IsSymbolsOf};
ghost use Rattle.ss_run.specs.Rows.{csv_row};
ghost use Rattle.ss_run.specs.Measure.{measure_name};
ghost use Rattle.ss_run.specs.Results.{result_names, results_row, values_at};

use crate::measure::{Measure, measure_name, measure_value};
use csv::{ByteRecord, WriterBuilder};
use itoa::Buffer;
use ss_check::SymbolTable;
use ss_debug::Debugger;
use ss_links::SetBoard;
use std::alloc::{AllocError, Global};

/// What is asked of a whole run: its data, and the questions to it in addition to its report.
#[derive(Clone, Copy)]
pub struct Asked<'a> {
    /// What is traced, if there is a trace.
    pub watched: &'a [Measure],
    /// The text of the run's data.
    pub data_text: &'a [u8],
    /// The name of the run's data, as the row of results has it.
    pub name: &'a [u8],
    /// The measures whose values in the last state are the results.
    pub results: &'a [Measure],
}

/// What is asked of a whole run, with the symbol table by which expressions and conditions are
/// read.
#[derive(Clone, Copy)]
pub(crate) struct Wanted<'a> {
    pub(crate) watched: &'a [Measure],
    pub(crate) data_text: &'a [u8],
    pub(crate) name: &'a [u8],
    pub(crate) results: &'a [Measure],
    pub(crate) symbols: &'a SymbolTable,
}

/// What is asked, by a symbol table.
pub(crate) fn with_symbols<'a>(asked: Asked<'a>, symbols: &'a SymbolTable) -> Wanted<'a>
    ensures watched { result.watched.now ≡ asked.entry.watched.now }
    ensures data_text { result.data_text.now ≡ asked.entry.data_text.now }
    ensures name { result.name.now ≡ asked.entry.name.now }
    ensures results { result.results.now ≡ asked.entry.results.now }
    ensures symbols { result.symbols.now ≡ symbols.now }
{
    Wanted {
        watched: asked.watched,
        data_text: asked.data_text,
        name: asked.name,
        results: asked.results,
        symbols,
    }
}

/// The row of some cells.
fn row_of_cells(alloc: Global, cells: &ByteRecord) -> Result<Vec<u8>, AllocError>
    ensures { IfOk result (λ row. row.items ≡ csv_row (fields_of cells.now)) }
{
    let mut writer = WriterBuilder::new().from_writer(Vec::new(alloc));
    if writer.write_byte_record(cells).is_err() {
        return Err(AllocError);
    }
    match writer.into_inner() {
        Ok(row) => Ok(row),
        Err(_) => Err(AllocError),
    }
}

/// Adds the values of some measures in the state that a debugger shows.
fn push_values<S: SetBoard>(
    cells: &mut ByteRecord,
    alloc: Global,
    debugger: &Debugger<S>,
    symbols: &SymbolTable,
    measures: &[Measure],
) -> Result<(), AllocError>
    requires symbols { IsSymbolsOf debugger.now.machine.input.program symbols.now }
    requires partial { partial_of cells.old ≡ [] }
    ensures { OnOk result (fields_of cells.new ≡ fields_of cells.old ++ values_at
        debugger.now.machine.input symbols.now measures.now (position debugger.now.machine)) }
{
    for measure in measures {
        let value = measure_value(alloc, debugger, symbols, measure)?;
        cells.push_field(&value)?;
    }
    Ok(())
}

/// The row of the results of a run that ended with a status, and whose last state a debugger shows.
pub(crate) fn results_row<S: SetBoard>(
    alloc: Global,
    debugger: &Debugger<S>,
    status: u8,
    asked: Wanted<'_>,
) -> Result<Vec<u8>, AllocError>
    requires { IsSymbolsOf debugger.now.machine.input.program asked.symbols.now }
    ensures { IfOk result (λ row. row.items ≡ results_row debugger.now.machine.input
        (record {
          name = asked.entry.name.now;
          results = asked.entry.results.now;
          symbols = asked.entry.symbols.now;
        }) status (position debugger.now.machine)) }
{
    let mut cells = ByteRecord::new(alloc);
    cells.push_field(asked.name)?;
    let mut number = Buffer::new();
    cells.push_field(number.format(status).as_bytes())?;
    push_values(&mut cells, alloc, debugger, asked.symbols, asked.results)?;
    row_of_cells(alloc, &cells)
}

/// Adds some measures, each as it is asked.
fn push_names(cells: &mut ByteRecord, alloc: Global, measures: &[Measure]) -> Result<(), AllocError>
    requires { partial_of cells.old ≡ [] }
    ensures { OnOk result (fields_of cells.new ≡ fields_of cells.old
        ++ map measure_name measures.now) }
{
    for measure in measures {
        let name = measure_name(alloc, measure)?;
        cells.push_field(&name)?;
    }
    Ok(())
}

/// The first row of a table of results: the names of its columns, which are `data`, `status`, and
/// each measure as it is asked (docs/RUNS.md).
///
/// `AllocError` if a growth was refused.
pub fn results_head(alloc: Global, measures: &[Measure]) -> Result<Vec<u8>, AllocError>
    ensures { IfOk result (λ row. row.items ≡ csv_row (result_names measures.now)) }
{
    let mut cells = ByteRecord::new(alloc);
    cells.push_field(b"data")?;
    cells.push_field(b"status")?;
    push_names(&mut cells, alloc, measures)?;
    row_of_cells(alloc, &cells)
}
