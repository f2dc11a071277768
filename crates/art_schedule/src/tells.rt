//! What a line prints.
ghost use Rattle.std.specs.Prelude.{◌≡◌, ◌≢◌, ◌<◌, [], IfErr, IfOk};
ghost use Rattle.art_schedule.specs.Tells.{TellsLine, told_text, name_of};

use crate::orders::Told;
use crate::stops::Stop;
use art_model::NoMemory;
use art_server::write_text;
use std::alloc::Global;
use std::io::Write;

/// Prints what is told of the pass at the place, if anything is.
pub(crate) fn tell<W: Write>(
    alloc: Global,
    place: usize,
    told: &Told,
    writer: &mut W,
) -> Result<(), Stop>
    requires { place < 8 }
    ensures { TellsLine place told.now (W.contents writer.old) (W.contents writer.new) result }
{
    let text = print_told(alloc, place, told)?;
    if !text.is_empty() {
        write_text(writer, text.as_slice())?;
    }
    Ok(())
}

/// The line that is printed, with its line feed; nothing where nothing is told.
fn print_told(alloc: Global, place: usize, told: &Told) -> Result<Vec<u8>, NoMemory>
    requires { place < 8 }
    ensures text { IfOk result (λ text. text.items ≡ told_text place told.now) }
    ensures some { IfErr result (λ refused. told_text place told.now ≢ []) }
{
    let mut text = Vec::new(alloc);
    match told {
        Told::Nothing => return Ok(text),
        Told::At(mark) => {
            text.push(name_of(place))?;
            text.extend_from_slice(b" at ")?;
            text.extend_from_slice(mark.word().as_bytes())?;
        }
        Told::Stepped => {
            text.push(name_of(place))?;
            text.extend_from_slice(b" stepped")?;
        }
        Told::Ended(reply, restarts) => {
            text.push(name_of(place))?;
            text.push(b' ')?;
            text.extend_from_slice(reply.as_slice())?;
            text.extend_from_slice(format!(in alloc; " restarts {restarts}")?.as_bytes())?;
        }
    }
    text.push(b'\n')?;
    Ok(text)
}

/// The name of the pass at the place.
fn name_of(place: usize) -> u8
    requires { place < 8 }
    ensures { result ≡ name_of place }
{
    b'A' + place as u8
}
