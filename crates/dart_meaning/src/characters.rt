//! The characters of a text.

ghost use Rattle.std.specs.Prelude.{◌≡◌};
ghost use Rattle.std.specs.List.{list_all};
ghost use Rattle.dart_syntax.specs.Table as table;
ghost use Rattle.dart_meaning.specs.Program as program;

fn is_letter(unit: u16) -> bool
    ensures { result ≡ program.is_letter unit }
{
    (65 <= unit && unit <= 90) || (97 <= unit && unit <= 122)
}

fn is_digit(unit: u16) -> bool
    ensures { result ≡ table.is_digit unit }
{
    48 <= unit && unit <= 57
}

fn is_mark(unit: u16) -> bool
    ensures { result ≡ program.is_mark unit }
{
    unit == u16::from(b'.')
        || unit == u16::from(b',')
        || unit == u16::from(b':')
        || unit == u16::from(b';')
        || unit == u16::from(b'!')
        || unit == u16::from(b'?')
        || unit == u16::from(b'-')
}

fn is_plain(unit: u16) -> bool
    ensures { result ≡ program.is_plain unit }
{
    is_letter(unit) || is_digit(unit) || unit == u16::from(b' ') || is_mark(unit)
}

/// Whether each is a letter, a digit, a blank or one of `. , : ; ! ? -`.
pub fn are_plain(units: &[u16]) -> bool
    ensures { result ≡ list_all program.is_plain units.now }
{
    units.iter().all(|unit| is_plain(*unit))
}
