ghost use Rattle.std.specs.Prelude.{◌≡◌, ◌+◌, ◌≤◌, T, [], ◌∷◌, length, IfSome};
ghost use Rattle.std.specs.Float.{binary32};
ghost use Rattle.std.specs.Float.Ieee.{fits};
ghost use Rattle.job.specs.declared.item.Item.TheVariants.{Path};
ghost use Rattle.job.specs.Spelling.{float, floats, AllFit, Fitting};
ghost use Rattle.job.specs.Writing.{written, record_of, size_written, with_record};

use crate::float::bits_of;
use crate::letter::command_letter;
use path::command::Command;
use path::geometry::Point;

/// Writes a command's record over the bytes from a place on, and answers its size; none where it does
/// not fit whole, and nothing is written then.
pub fn write_command(bytes: &mut [u8], place: usize, command: Command) -> Option<usize>
    ensures answer { result ≡ size_written bytes.old place command }
    ensures after { bytes.new ≡ with_record bytes.old place command }
    ensures fitting { IfSome result (λ _. Fitting (Path command)) }
{
    let size = record_size(command);
    if bytes.len().saturating_sub(place) < size {
        return None;
    }
    put_record(bytes, place, command);
    Some(size)
}

fn record_size(command: Command) -> usize
    ensures { result ≡ length (record_of command) }
{
    match command {
        Command::MoveTo(_) | Command::LineTo(_) => 9,
        Command::CurveTo(_, _, _) => 25,
        Command::QuadTo(_, _) => 17,
        Command::Close => 1,
    }
}

fn put_record(bytes: &mut [u8], place: usize, command: Command)
    requires { place + length (record_of command) ≤ length bytes.old }
    ensures bytes { bytes.new ≡ written bytes.old place (record_of command) }
    ensures fitting { Fitting (Path command) }
{
    put(bytes, place, &[command_letter(command) as u8]);
    match command {
        Command::MoveTo(p) | Command::LineTo(p) => put_point(bytes, place + 1, p),
        Command::CurveTo(a, b, p) => {
            put_point(bytes, place + 1, a);
            put_point(bytes, place + 9, b);
            put_point(bytes, place + 17, p);
        }
        Command::QuadTo(a, p) => {
            put_point(bytes, place + 1, a);
            put_point(bytes, place + 9, p);
        }
        Command::Close => {}
    }
}

fn put_point(bytes: &mut [u8], place: usize, p: Point)
    requires { place + 8 ≤ length bytes.old }
    ensures bytes { bytes.new ≡ written bytes.old place (floats (p.x ∷ p.y ∷ [])) }
    ensures fitting { AllFit (p.x ∷ p.y ∷ []) }
{
    put_number(bytes, place, p.x);
    put_number(bytes, place + 4, p.y);
}

// A number has its high byte first.
fn put_number(bytes: &mut [u8], place: usize, x: f32)
    requires { place + 4 ≤ length bytes.old }
    ensures bytes { bytes.new ≡ written bytes.old place (float x) }
    ensures fitting { T (fits binary32 x) }
{
    put(bytes, place, &bits_of(x).to_be_bytes());
}

fn put(bytes: &mut [u8], place: usize, row: &[u8])
    requires { place + length row.now ≤ length bytes.old }
    ensures { bytes.new ≡ written bytes.old place row.now }
{
    bytes[place..place + row.len()].copy_from_slice(row);
}
