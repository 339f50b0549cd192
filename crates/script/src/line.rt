// A line as a call: its two words, and then what the row of the table asks for.
ghost use Rattle.std.specs.Prelude.{IfOk, IfSome};
ghost use Rattle.script.specs.Fits.{IsCall};

use crate::{keep_outs, numbers};
use grammar::{Planner, Row, Verb};
use input::Reader;
use keep_out_table::KeepOuts;
use words::word;

// A line fits no row, or breaks a limit.
#[derive(Clone, Copy, Debug)]
pub struct NoCall;

// A call. Its numbers stand in memory that the caller lends.
#[derive(Clone, Copy)]
pub struct Line<'a> {
    pub planner: Planner,
    pub verb: Verb,
    // 0 where the row has none.
    pub capacity: usize,
    pub numbers: &'a [f64],
    pub table: KeepOuts,
}

// The next line, with its end: nothing where it has no word, as an empty line, a comment or the end of the input. A line that is no call
// is not read to its end.
pub fn read<'a>(reader: &mut Reader, space: &'a mut [f64]) -> Result<Option<Line<'a>>, NoCall>
    ensures { IfOk result (λ read. IfSome read IsCall) }
{
    let Some(word) = word::next(reader) else {
        word::skip_line(reader);
        return Ok(None);
    };
    let planner = grammar::planner_of(word.text()).ok_or(NoCall)?;
    let word = word::next(reader).ok_or(NoCall)?;
    let verb = grammar::verb_of(word.text()).ok_or(NoCall)?;
    let row = Row::of(planner, verb).ok_or(NoCall)?;
    let capacity = numbers::capacity(reader, row)?;
    let numbers = numbers::read(reader, space, row.numbers)?;
    let table = keep_outs::read(reader, row)?;
    if word::next(reader).is_some() {
        return Err(NoCall);
    }
    word::skip_line(reader);
    Ok(Some(Line {
        planner,
        verb,
        capacity,
        numbers,
        table,
    }))
}
