//! The names of what is drawn: a letter for its kind and a number.
ghost use Rattle.std.specs.Prelude.{◌≡◌, ◌<◌, true};
ghost use Rattle.cell_base.specs.Names.{is_name_byte};
ghost use Rattle.cell_make.specs.Names.{numbered_name};

use cell_base::Name;

/// A letter and a number.
pub fn numbered_name(letter: u8, number: u8) -> Name
    requires letter { is_name_byte letter ≡ true }
    requires number { number < 20 }
    ensures { result ≡ numbered_name letter number }
{
    let name = if number < 10 {
        Name::read(&[letter, b'0' + number])
    } else {
        Name::read(&[letter, b'1', b'0' + (number - 10)])
    };
    name.unwrap()
}
