// What no clause says: that calls with ample memory succeed, and values from the Unicode standard.
use crate::bytes::Bytes;
use crate::ends::{End, RunEnd, Shown};
use crate::laws;
use crate::lists::{Files, Lines, NamedFile, NumberList, Words};
use crate::text::{Text, TextError};
use std::test::Fail;

#[test]
fn texts_are_read_and_written(rt: HostRuntime) -> Result<(), Fail> {
    let alloc = rt.alloc();
    let text = Text::from_utf8(alloc, "a€😀".as_bytes())?;
    assert_eq!(rt; text.as_slice(), [0x61, 0x20AC, 0xD83D, 0xDE00].as_slice());
    assert_eq!(rt;
        text.to_utf8()?.as_slice(),
        b"a\xE2\x82\xAC\xF0\x9F\x98\x80".as_slice()
    );
    assert!(rt; text.is("a€😀"));
    for other in ["a€", "a€😀b", "a€😁", "", "b€😀"] {
        assert!(rt; !text.is(other), "{other}");
    }
    let lone = Text::from_slice(alloc, &[0x61, 0xDE00, 0xD83D])?;
    assert_eq!(rt;
        lone.to_utf8()?.as_slice(),
        b"a\xEF\xBF\xBD\xEF\xBF\xBD".as_slice()
    );
    assert!(rt; !lone.is("a\u{FFFD}\u{FFFD}"));
    Ok(())
}

#[test]
fn bad_bytes_have_a_place(rt: HostRuntime) -> Result<(), Fail> {
    let cases: [(&[u8], u64); 6] = [
        (b"\xFF", 0),
        (b"a\xC0\x80", 1),
        (b"ab\xE2\x82", 2),
        (b"\xE2\x82\xAC\xED\xA0\x80", 3),
        (b"\xF0\x9F\x98\x80\xF4\x90\x80\x80", 4),
        (b"abcde\x80f", 5),
    ];
    for (bytes, at) in cases {
        let refused = Text::from_utf8(rt.alloc(), bytes).err();
        assert_eq!(rt; refused, Some(TextError::BadUtf8 { at }), "at {at}");
    }
    Ok(())
}

#[test]
fn texts_grow_and_are_cut(rt: HostRuntime) -> Result<(), Fail> {
    let alloc = rt.alloc();
    let mut text = Text::new(alloc);
    assert!(rt; text.is_empty());
    text.push(0x78)?;
    text.extend(&[0x79, 0x7A])?;
    assert_eq!(rt; text.len(), 3);
    assert_eq!(rt; text.unit(1), 0x79);
    assert!(rt; text.slice(1, 3)?.is("yz"));
    assert!(rt; text.copy()? == text);
    assert!(rt; text < Text::from_str(alloc, "xz")?);
    Ok(())
}

#[test]
fn lists_hold_their_items(rt: HostRuntime) -> Result<(), Fail> {
    let alloc = rt.alloc();
    let mut bytes = Bytes::with_capacity(alloc, 2)?;
    bytes.push(1)?;
    bytes.extend(&[2, 3])?;
    assert_eq!(rt; bytes.as_slice(), [1, 2, 3].as_slice());
    assert!(rt; bytes == Bytes::from_slice(alloc, &[1, 2, 3])?);

    let mut numbers = NumberList::new(alloc);
    numbers.push(7)?;
    assert_eq!(rt; numbers.len(), 1);
    assert_eq!(rt; *numbers.get(0), 7);

    let mut files = Files::new(alloc);
    files.push(NamedFile {
        name: Text::from_str(alloc, "a.dart")?,
        bytes,
    })?;
    assert_eq!(rt; files.len(), 1);
    assert!(rt; files.get(0).name.is("a.dart"));
    assert_eq!(rt; files.into_vec().len(), 1);

    let mut words = Words::new(alloc);
    words.push("run")?;
    words.push("")?;
    assert_eq!(rt; words.len(), 2);
    assert_eq!(rt; words.get(0), "run");
    assert_eq!(rt; words.get(1), "");
    Ok(())
}

#[test]
fn a_run_has_an_output_and_an_end(rt: HostRuntime) -> Result<(), Fail> {
    let alloc = rt.alloc();
    let mut output = Lines::new(alloc);
    output.push(Text::from_str(alloc, "3")?)?;
    let run = RunEnd {
        output,
        end: End::Threw(Shown::Class(Text::from_str(alloc, "Error")?)),
    };
    assert!(rt; run.output.get(0).is("3"));
    assert!(rt; run.end == End::Threw(Shown::Class(Text::from_str(alloc, "Error")?)));
    assert!(rt; run.end != End::Threw(Shown::Str(Text::from_str(alloc, "Error")?)));
    Ok(())
}

#[test]
fn laws_do_nothing() {
    laws::utf8_comes_back();
    laws::paired_units_come_back();
    laws::writes_utf8();
    laws::reads_pairs();
    laws::units_tell_apart();
    laws::units_join();
    laws::ascii_is_its_units();
}
