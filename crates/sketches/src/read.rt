// A whole model file.
ghost use Rattle.std.specs.Prelude.{◌≡◌, ℕ, List, IfOk};
ghost use Rattle.records.specs.Files.{bytes_of};
ghost use Rattle.rows.specs.PlacesOf.{place_at};
ghost use Rattle.records.specs.Readers.{read_bytes};
ghost use Rattle.sketches.specs.Readings.{unplaced, nothing, model_reader};
ghost use Rattle.sketches.specs.declared.entry.Entry.{Entry};
ghost use Rattle.sketches.specs.Sketches.{Shows};
ghost use Rattle.sketches.specs.Answers.{Finished, Inside, Started, ModelRead};

use crate::entry::Ranges;
use crate::sketch::Sketch;
use records::cursor::Cursor;
use records::file::File;
use records::numbers::{Label, LabelCount};
use records::refusal::Refusal;
use rows::places::Places;
use rows::rows::Rows;

// What a taken model file leaves: its rows, where the labels stand, and how many principals it was read for.
#[derive(Drop)]
pub struct GivenModel {
    pub rows: Rows,
    pub places: Places,
    pub principals: u16,
}

// The lowest label below a count that has no place.
fn first_unplaced(places: &Places, labels: LabelCount) -> Option<Label>
    ensures { result ≡ unplaced labels.0 (place_at places.now) }
{
    (0..labels.0)
        .map(Label)
        .find(|x| places.place(*x).is_none())
}

// The model that a sketch is where the file ends.
fn finish(sketch: Sketch, ranges: Ranges) -> Result<GivenModel, Refusal>
    ensures answer { Finished ranges.principals ranges.labels.0 sketch result }
    ensures inside { (W : ℕ) (es : List Entry) → Shows W es sketch → IfOk result Inside }
{
    match first_unplaced(&sketch.places, ranges.labels) {
        Some(label) => Err(Refusal::LabelUnplaced(label)),
        None => Ok(GivenModel {
            rows: sketch.rows,
            places: sketch.places,
            principals: ranges.principals,
        }),
    }
}

// The sketch that the first record begins.
fn begin(cursor: &mut Cursor) -> Result<Sketch, Refusal>
    ensures { (P n : ℕ) → Started P n (read_bytes (model_reader P n) cursor.old.number nothing cursor.old.rest.now) cursor.new.number cursor.new.rest.now result }
{
    let at = cursor.number();
    let record = cursor.next()?.ok_or(Refusal::EndsEarly(at))?;
    Sketch::begin(record)
}

// Reads a model file for a sequent of so many labels and for so many principals.
pub fn read_model(file: File, labels: LabelCount, principals: u16) -> Result<GivenModel, Refusal>
    ensures answer { ModelRead principals labels.0 (bytes_of file.entry) result }
    ensures inside { IfOk result Inside }
{
    let ranges = Ranges { principals, labels };
    let mut cursor = Cursor::new(file);
    let mut sketch = begin(&mut cursor)?;
    while let Some(record) = cursor.next()? {
        sketch.take(record, ranges)?;
    }
    finish(sketch, ranges)
}
