use super::*;
use crate::translate::compile_first;
use code_units::{Bytes, End, Files, NamedFile, NumberList, RunEnd, Text};
use dart_tokens::scan;
use js_meaning::run_to;
use js_reader::read_file;
use js_tree::NamedTree;
use outside::{MemSink, MemSource};
use sqlite_items::Items;
use std::alloc::Global;
use std::fs;
use std::process::Abort;
use std::test::Fail;

const COMPILE: [&str; 3] = ["compile", "a.dart", "out.js"];

const SUM: &[u8] = b"main(){print(1+2);}";

const SUM_TRANSLATED: &str =
    "function main$() {\nlet a0$ = 1 + 2;\nhost$.print(String(a0$));\nreturn null;\n}\nmain$();\n";

fn words_of(alloc: Global, all: &[&str]) -> Result<Words, Fail> {
    let mut words = Words::new(alloc);
    for word in all {
        words.push(word)?;
    }
    Ok(words)
}

fn numbers(alloc: Global, all: &[u32]) -> Result<NumberList, Fail> {
    let mut list = NumberList::new(alloc);
    for n in all {
        list.push(*n)?;
    }
    Ok(list)
}

fn one_file(alloc: Global, name: &str, bytes: &[u8]) -> Result<Files, Fail> {
    let mut files = Files::new(alloc);
    files.push(NamedFile {
        name: Text::from_str(alloc, name)?,
        bytes: Bytes::from_slice(alloc, bytes)?,
    })?;
    Ok(files)
}

// What is tried: the words, what `a.dart` holds, and the numbers of the calls of source and sink that fail.
#[derive(Clone, Copy)]
struct Row<'a> {
    words: &'a [&'a str],
    file: &'a [u8],
    source_fails: &'a [u32],
    sink_fails: &'a [u32],
}

// The row of `compile a.dart out.js` without a fault.
fn compile_row(file: &[u8]) -> Row<'_> {
    Row {
        words: COMPILE.as_slice(),
        file,
        source_fails: &[],
        sink_fails: &[],
    }
}

fn assert_file(rt: &impl Abort, file: &NamedFile, name: &str, bytes: &str) {
    assert!(rt; file.name.is(name), "not {name}");
    assert!(rt;
        file.bytes.as_slice() == bytes.as_bytes(),
        "{name} is other"
    );
}

// A row's status, what it said, and what `out.js` holds beside a file that was there before and stays.
fn check(
    rt: &impl Abort,
    alloc: Global,
    row: &Row<'_>,
    status: Status,
    said: &str,
    put: Option<&str>,
) -> Result<(), Fail> {
    let words = words_of(alloc, row.words)?;
    let mut source = MemSource::new(
        one_file(alloc, "a.dart", row.file)?,
        numbers(alloc, row.source_fails)?,
    );
    let mut sink = MemSink::new(
        alloc,
        one_file(alloc, "old.js", b"old")?,
        2,
        4096,
        numbers(alloc, row.sink_fails)?,
    )?;
    let answer = dart_web_alone(alloc, &words, &mut source, &mut sink);
    assert!(rt; sink.said() == said.as_bytes(), "not said: {said}");
    assert_eq!(rt; answer, status, "with {said}");
    let files = sink.files();
    let count = if put.is_some() { 2 } else { 1 };
    assert_eq!(rt; files.len(), count, "files with {said}");
    assert_file(rt, &files[0], "old.js", "old");
    if let Some(bytes) = put {
        assert_file(rt, &files[1], "out.js", bytes);
    }
    Ok(())
}

#[test]
fn a_program_is_translated(rt: HostRuntime) -> Result<(), Fail> {
    let alloc = rt.alloc();
    let put = Some(SUM_TRANSLATED);
    check(&rt, alloc, &compile_row(SUM), Status::Ok, "", put)?;
    let spaced = b" main ( ) {\n print(1 +\t2) ;\r\n}\n";
    check(&rt, alloc, &compile_row(spaced), Status::Ok, "", put)?;
    let commented = b"main(){/* a /* sum */ */print(0x1+02);// 3\n}";
    check(&rt, alloc, &compile_row(commented), Status::Ok, "", put)
}

#[test]
fn each_operator_is_a_let(rt: HostRuntime) -> Result<(), Fail> {
    let alloc = rt.alloc();
    let file =
        b"main(){var a=1+2*3-4;var t='Hi, all!';print(a*a);print(t);var main=t;print(main);}";
    let put =
        "function main$() {\nlet a0$ = 2 * 3;\nlet a1$ = 1 + a0$;\nlet a2$ = a1$ - 4;\nlet v0$ = a2$;\n\
        let v1$ = \"Hi, all!\";\nlet a3$ = v0$ * v0$;\nhost$.print(String(a3$));\nhost$.print(v1$);\n\
        let v2$ = v1$;\nhost$.print(v2$);\nreturn null;\n}\nmain$();\n";
    check(&rt, alloc, &compile_row(file), Status::Ok, "", Some(put))
}

// The entry is refused with this line.
fn refuse(rt: &impl Abort, alloc: Global, file: &[u8], said: &str) -> Result<(), Fail> {
    check(rt, alloc, &compile_row(file), Status::Refused, said, None)
}

#[test]
fn a_broken_token_is_refused_at_its_place(rt: HostRuntime) -> Result<(), Fail> {
    let alloc = rt.alloc();
    let all: [(&[u8], &str); 8] = [
        (b"main(){print('\xff');}", "refused S1 a.dart 14\n"),
        (b"main(){print(1)#;}", "refused S2 a.dart 15\n"),
        (b"main(){print('a);}", "refused S3 a.dart 13\n"),
        (b"main(){/* print(1);}", "refused S4 a.dart 7\n"),
        (b"main(){print('a\\x4');}", "refused S5 a.dart 15\n"),
        (
            b"main(){print(9007199254740992);}",
            "refused S6 a.dart 13\n",
        ),
        (b"main(){var a=1;print(2.5);}", "refused S7 a.dart 21\n"),
        (b"main(){print(\"\"\"a\"\"\");}", "refused S7 a.dart 13\n"),
    ];
    for (file, said) in all {
        refuse(&rt, alloc, file, said)?;
    }
    Ok(())
}

#[test]
fn what_is_no_first_program_is_refused(rt: HostRuntime) -> Result<(), Fail> {
    let alloc = rt.alloc();
    let all: [&[u8]; 8] = [
        b"",
        b"main(){print(1);",
        b"main(){print(a);var a=1;}",
        b"main(){var a=1;var a=2;}",
        b"main(){var if=1;}",
        b"main(){print('a'+'b');}",
        b"main(){print('a' 'b');}",
        b"main(){f() native g;print(1);}",
    ];
    for file in all {
        refuse(&rt, alloc, file, "refused G1 a.dart 0\n")?;
    }
    Ok(())
}

#[test]
fn an_absent_entry_is_refused(rt: HostRuntime) -> Result<(), Fail> {
    let alloc = rt.alloc();
    let absent = Row {
        words: &["compile", "b.dart", "out.js"],
        ..compile_row(SUM)
    };
    check(
        &rt,
        alloc,
        &absent,
        Status::Refused,
        "refused U1 b.dart 0\n",
        None,
    )
}

// A head, so many times the same behind it, and a tail.
fn repeated(
    alloc: Global,
    head: &[u8],
    count: u32,
    part: &[u8],
    tail: &[u8],
) -> Result<Vec<u8>, Fail> {
    let mut file = head.to_vec(alloc)?;
    for _ in 0..count {
        file.extend_from_slice(part)?;
    }
    file.extend_from_slice(tail)?;
    Ok(file)
}

// `return` of 1 in so many parentheses.
fn in_parentheses(alloc: Global, count: u32) -> Result<Vec<u8>, Fail> {
    let open = repeated(alloc, b"main(){return ", count, b"(", b"1")?;
    repeated(alloc, open.as_slice(), count, b")", b";}")
}

#[test]
fn a_token_nested_too_deep_is_refused(rt: HostRuntime) -> Result<(), Fail> {
    let alloc = rt.alloc();
    let deep = in_parentheses(alloc, 200)?;
    refuse(&rt, alloc, deep.as_slice(), "refused G2 a.dart 214\n")?;
    let less = in_parentheses(alloc, 199)?;
    refuse(&rt, alloc, less.as_slice(), "refused G1 a.dart 0\n")
}

#[test]
fn tokens_come_before_nesting(rt: HostRuntime) -> Result<(), Fail> {
    let alloc = rt.alloc();
    let deep = repeated(alloc, b"main(){return ", 300, b"(", b"9007199254740992")?;
    refuse(&rt, alloc, deep.as_slice(), "refused S6 a.dart 314\n")
}

#[test]
fn a_sum_has_so_many_operators(rt: HostRuntime) -> Result<(), Fail> {
    let alloc = rt.alloc();
    let most = repeated(alloc, b"main(){print(1", 198, b"+1", b");}")?;
    check_status(&rt, alloc, most.as_slice(), Status::Ok, "")?;
    let more = repeated(alloc, b"main(){print(1", 199, b"+1", b");}")?;
    refuse(&rt, alloc, more.as_slice(), "refused G2 a.dart 411\n")
}

#[test]
fn other_words_are_no_command(rt: HostRuntime) -> Result<(), Fail> {
    let alloc = rt.alloc();
    let all: [&[&str]; 11] = [
        &[],
        &["compile"],
        &["compile", "a.dart"],
        &["compile", "a.dart", "out.js", "--workers"],
        &["Compile", "a.dart", "out.js"],
        &["run", "a.dart", "out.js"],
        &["compile", "", "out.js"],
        &["compile", "a.dart", "-out.js"],
        &["compile", "lib/a.dart", "out.js"],
        &["compile", ".", "out.js"],
        &["compile", "..", "out.js"],
    ];
    for words in all {
        let row = Row {
            words,
            ..compile_row(SUM)
        };
        check(&rt, alloc, &row, Status::Usage, "usage\n", None)?;
    }
    Ok(())
}

#[test]
fn a_failed_call_is_told(rt: HostRuntime) -> Result<(), Fail> {
    let alloc = rt.alloc();
    let unread = Row {
        source_fails: &[1],
        ..compile_row(SUM)
    };
    let said = "cannot read a.dart\n";
    check(&rt, alloc, &unread, Status::ReadFault, said, None)?;
    let unput = Row {
        sink_fails: &[1],
        ..compile_row(SUM)
    };
    check(&rt, alloc, &unput, Status::WriteFault, "", None)?;
    let unsaid = Row {
        sink_fails: &[1],
        ..compile_row(b"")
    };
    check(&rt, alloc, &unsaid, Status::WriteFault, "", None)
}

// What `compile a.dart out.js` answers and says, whatever it puts.
fn check_status(
    rt: &impl Abort,
    alloc: Global,
    file: &[u8],
    status: Status,
    said: &str,
) -> Result<(), Fail> {
    let files = one_file(alloc, "a.dart", file)?;
    let mut source = MemSource::new(files, NumberList::new(alloc));
    let mut sink = MemSink::new(alloc, Files::new(alloc), 1, 16384, NumberList::new(alloc))?;
    let words = words_of(alloc, &COMPILE)?;
    let answer = dart_web_alone(alloc, &words, &mut source, &mut sink);
    assert!(rt; sink.said() == said.as_bytes(), "not said: {said}");
    assert_eq!(rt; answer, status, "with {said}");
    Ok(())
}

#[test]
fn a_file_may_have_so_many_bytes(rt: HostRuntime) -> Result<(), Fail> {
    let alloc = rt.alloc();
    let most = repeated(alloc, SUM, 1_048_576 - 19, b" ", b"")?;
    check_status(&rt, alloc, most.as_slice(), Status::Ok, "")?;
    let bad = repeated(alloc, SUM, 1_048_576 - 20, b" ", b"#")?;
    let said = "refused S2 a.dart 1048575\n";
    check_status(&rt, alloc, bad.as_slice(), Status::Refused, said)
}

#[test]
fn a_longer_file_is_refused(rt: HostRuntime) -> Result<(), Fail> {
    let alloc = rt.alloc();
    let longer = repeated(alloc, SUM, 1_048_576 - 19, b" ", b"#")?;
    let said = "refused N2 a.dart 0\n";
    check_status(&rt, alloc, longer.as_slice(), Status::Refused, said)
}

fn translated(alloc: Global, file: &[u8]) -> Result<Bytes, Fail> {
    if file.len() > 1000 {
        return Err(Fail::from("too long"));
    }
    let Ok(tokens) = scan(alloc, 1, file) else {
        return Err(Fail::from("no tokens"));
    };
    let Some(bytes) = compile_first(alloc, tokens.items.as_slice())? else {
        return Err(Fail::from("not of the first form"));
    };
    Ok(bytes)
}

// The run of a translation, read back as the file out.js.
fn read_back(alloc: Global, file: &[u8]) -> Result<RunEnd, Fail> {
    let bytes = translated(alloc, file)?;
    let Ok(tree) = read_file(alloc, bytes.as_slice()) else {
        return Err(Fail::from("no spelling"));
    };
    let mut files = Items::new(alloc);
    files.push(NamedTree {
        name: Text::from_str(alloc, "out.js")?,
        tree,
    })?;
    Ok(run_to(alloc, &files, 200, &[], 1000)?)
}

#[test]
fn a_translation_runs_as_its_program(rt: HostRuntime) -> Result<(), Fail> {
    let alloc = rt.alloc();
    let run = read_back(alloc, SUM)?;
    assert_eq!(rt; run.output.len(), 1);
    assert!(rt; run.output.get(0).is("3"));
    assert!(rt; matches!(run.end, End::Done));
    let left = read_back(
        alloc,
        b"main(){var a=9007199254740991;print(a);print(a+1);}",
    )?;
    assert_eq!(rt; left.output.len(), 1);
    assert!(rt; left.output.get(0).is("9007199254740991"));
    assert!(rt; matches!(left.end, End::Left));
    let all = read_back(alloc, b"main(){var t='a b';print(t);print(2-3*4);}")?;
    assert_eq!(rt; all.output.len(), 2);
    assert!(rt; all.output.get(0).is("a b"));
    assert!(rt; all.output.get(1).is("-10"));
    assert!(rt; matches!(all.end, End::Done));
    Ok(())
}

#[test]
fn real_files_are_read_and_written(rt: HostRuntime) -> Result<(), Fail> {
    let alloc = rt.alloc();
    fs::write(&rt, "a.dart", SUM)?;
    let words = words_of(alloc, &COMPILE)?;
    let mut source = DiskSource::new(&rt);
    let mut sink = DiskSink::new(&rt);
    let answer = dart_web_alone(alloc, &words, &mut source, &mut sink);
    assert_eq!(rt; answer, Status::Ok);
    let text = fs::read_to_string(&rt, "out.js")?;
    assert!(rt; text.as_str() == SUM_TRANSLATED);
    let gone = words_of(alloc, &["compile", "gone.dart", "gone.js"])?;
    let answer = dart_web_alone(alloc, &gone, &mut source, &mut sink);
    assert_eq!(rt; answer, Status::Refused);
    assert!(rt; fs::read_to_string(&rt, "gone.js").is_err());
    Ok(())
}
