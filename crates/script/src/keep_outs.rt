// The keep-outs that end a line: `box` and six numbers, `disc` and three, or `floor` and one.
ghost use Rattle.std.specs.Prelude.{IfOk};
ghost use Rattle.script.specs.Fits.{HasKeepOuts};

use crate::line::NoCall;
use crate::numbers;
use grammar::Row;
use input::Reader;
use keep_out::KeepOut;
use keep_out_table::KeepOuts;
use state::State;
use words::word;

fn state(reader: &mut Reader) -> Result<State, NoCall> {
    let [az, el, feed] = numbers::exactly::<3>(reader)?;
    Ok(State { az, el, feed })
}

// The keep-out whose first word has been read.
fn one(reader: &mut Reader, word: &[u8]) -> Result<KeepOut, NoCall> {
    match word {
        b"box" => {
            let low = state(reader)?;
            let high = state(reader)?;
            Ok(KeepOut::Box { low, high })
        }
        b"disc" => {
            let [az, el, radius] = numbers::exactly::<3>(reader)?;
            Ok(KeepOut::Disc { az, el, radius })
        }
        b"floor" => {
            let [el] = numbers::exactly::<1>(reader)?;
            Ok(KeepOut::Floor(el))
        }
        _ => Err(NoCall),
    }
}

// As many as the row asks for, up to the line's end. The table holds 32 at most, and its count goes on beyond that.
#[tactic(auto, unfolding(keep_out_table::specs::Table::empty_table))]
pub fn read(reader: &mut Reader, row: Row) -> Result<KeepOuts, NoCall>
    ensures { IfOk result (HasKeepOuts row) }
{
    let mut table = KeepOuts::new();
    for count in 0..row.most_keep_outs {
        let Some(word) = word::next(reader) else {
            break;
        };
        let held = one(reader, word.text())?;
        table = table.with(held).unwrap_or(table);
        table.count = count + 1;
    }
    if table.count < row.least_keep_outs {
        return Err(NoCall);
    }
    Ok(table)
}
