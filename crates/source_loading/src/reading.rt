//! The bytes of a file.
ghost use Rattle.std.specs.Prelude.{◌≡◌, IfOk, option_map, string_bytes};
ghost use Rattle.outside.specs.Outside.{ReadCause};
ghost use Rattle.source_loading.specs.Reading.{ComesBack, IsUtf8Name, ReadsAs};

use outside::{Read, Source};
use std::alloc::{AllocError, Global};

/// The most bytes of a file.
pub const MOST_BYTES: u64 = 1048576;

// The name in UTF-8, if it has no lone surrogate.
fn utf8_name(alloc: Global, name: &[u16]) -> Result<Option<String>, AllocError>
    ensures { IfOk result (λ made. IsUtf8Name name.now (option_map string_bytes made)) }
{
    Ok(String::from_utf16(alloc, name)?.ok())
}

/// Reads the file of that name. One byte more than a file may have is asked for, which shows that it is too long.
///
/// No file has a name with a lone surrogate: the source isn't asked for it.
#[tactic(auto, using(crate::proofs::Told::read_told, crate::proofs::Told::unpaired_absent))]
pub fn read_named<S: Source>(alloc: Global, source: &mut S, name: &[u16]) -> Read
    ensures unchanged { S.files source.new ≡ S.files source.old }
    ensures told { ReadsAs (S.files source.old) name.now result }
    ensures name { ComesBack name.now }
    ensures cause { ReadCause (S.faults source.old) (S.faults source.new) result }
{
    match utf8_name(alloc, name) {
        Ok(Some(name)) => source.read(alloc, name.as_str(), MOST_BYTES + 1),
        Ok(None) => Read::Absent,
        Err(_) => Read::Memory,
    }
}
