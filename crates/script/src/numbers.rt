// The numbers of a line: a capacity, and so many numbers or a list of them.
ghost use Rattle.std.specs.Prelude.{◌≤◌, IfOk, length};
ghost use Rattle.script.specs.Fits.{HasCapacity, HasNumbers};

use crate::line::NoCall;
use grammar::{Numbers, Row};
use input::Reader;
use words::{number, word};

// A row's capacity, 0 where it has none.
pub fn capacity(reader: &mut Reader, row: Row) -> Result<usize, NoCall>
    ensures { IfOk result (HasCapacity row) }
{
    if !row.has_capacity {
        return Ok(0);
    }
    let word = word::next(reader).ok_or(NoCall)?;
    let capacity = number::whole_of(word.text()).ok_or(NoCall)? as usize;
    if route_buffer::LENGTH < capacity {
        return Err(NoCall);
    }
    Ok(capacity)
}

// The line's next number, if it has one more word.
fn next(reader: &mut Reader) -> Result<Option<f64>, NoCall> {
    let Some(word) = word::next(reader) else {
        return Ok(None);
    };
    let number = number::of(word.text()).ok_or(NoCall)?;
    Ok(Some(number))
}

// A number for each place.
fn fill(reader: &mut Reader, places: &mut [f64]) -> Result<(), NoCall> {
    for place in places.iter_mut() {
        *place = next(reader)?.ok_or(NoCall)?;
    }
    Ok(())
}

// As many numbers as the caller takes apart.
pub fn exactly<const N: usize>(reader: &mut Reader) -> Result<[f64; N], NoCall> {
    let mut numbers = [0.0; N];
    fill(reader, &mut numbers)?;
    Ok(numbers)
}

// Numbers up to the line's end, and how many they are. The line may have more than there are places.
fn list(reader: &mut Reader, places: &mut [f64]) -> Result<usize, NoCall>
    ensures { IfOk result (λ count. count ≤ length places.new) }
{
    for (count, place) in places.iter_mut().enumerate() {
        let Some(number) = next(reader)? else {
            return Ok(count);
        };
        *place = number;
    }
    Ok(places.len())
}

// A row's numbers, at the front of memory that the caller lends.
pub fn read<'a>(
    reader: &mut Reader,
    space: &'a mut [f64],
    numbers: Numbers,
) -> Result<&'a [f64], NoCall>
    ensures { IfOk result (λ held. HasNumbers numbers (length held.now)) }
{
    match numbers {
        Numbers::Exactly(count) => {
            let places = space.get_mut(..count).ok_or(NoCall)?;
            fill(reader, places)?;
            Ok(places)
        }
        Numbers::Any => {
            let count = list(reader, space)?;
            Ok(&space[..count])
        }
    }
}
