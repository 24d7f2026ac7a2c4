//! What holds between UTF-8 bytes and units. Each function does nothing: its contract is the law.
ghost use Rattle.code_units.specs.TextLaws.{Utf8ComesBack, PairedUnitsComeBack, WritesUtf8, ReadsPairs, UnitsTellApart, UnitsJoin, AsciiIsItsUnits};

/// UTF-8 that is read and written again is the same.
pub fn utf8_comes_back()
    ensures { Utf8ComesBack }
{}

/// Units without a lone surrogate that are written and read again are the same.
pub fn paired_units_come_back()
    ensures { PairedUnitsComeBack }
{}

/// What is written is UTF-8.
pub fn writes_utf8()
    ensures { WritesUtf8 }
{}

/// What is read has no lone surrogate.
pub fn reads_pairs()
    ensures { ReadsPairs }
{}

/// Equal units come from equal bytes.
pub fn units_tell_apart()
    ensures { UnitsTellApart }
{}

/// The units of two texts behind each other stand behind each other.
pub fn units_join()
    ensures { UnitsJoin }
{}

/// Each byte of ASCII is a unit.
pub fn ascii_is_its_units()
    ensures { AsciiIsItsUnits }
{}
