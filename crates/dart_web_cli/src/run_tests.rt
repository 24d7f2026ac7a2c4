//! `runjs` over files in memory.

use crate::top::{Status, dart_web_alone};
use code_units::{Bytes, Files, NamedFile, NumberList, Text, Words};
use outside::{MemSink, MemSource};
use std::alloc::Global;
use std::process::Abort;
use std::test::Fail;

const RUN: [&str; 2] = ["runjs", "out.js"];

fn words_of(alloc: Global, all: &[&str]) -> Result<Words, Fail> {
    let mut words = Words::new(alloc);
    for word in all {
        words.push(word)?;
    }
    Ok(words)
}

fn numbers(alloc: Global, all: &[u32]) -> Result<NumberList, Fail> {
    let mut list = NumberList::new(alloc);
    for n in all {
        list.push(*n)?;
    }
    Ok(list)
}

fn files_of(alloc: Global, all: &[(&str, &str)]) -> Result<Files, Fail> {
    let mut files = Files::new(alloc);
    for (name, text) in all {
        let name = Text::from_str(alloc, name)?;
        let bytes = Bytes::from_slice(alloc, text.as_bytes())?;
        files.push(NamedFile { name, bytes })?;
    }
    Ok(files)
}

// The status of these words over these files, where the calls of these numbers fail, and what is said.
fn check_faulty(
    rt: &impl Abort,
    alloc: Global,
    words: &[&str],
    files: &[(&str, &str)],
    fails: (&[u32], &[u32]),
    status: Status,
    said: &str,
) -> Result<(), Fail> {
    let words = words_of(alloc, words)?;
    let mut source = MemSource::new(files_of(alloc, files)?, numbers(alloc, fails.0)?);
    let mut sink = MemSink::new(alloc, Files::new(alloc), 0, 4096, numbers(alloc, fails.1)?)?;
    let answer = dart_web_alone(alloc, &words, &mut source, &mut sink);
    assert!(rt; sink.said() == said.as_bytes(), "not said: {said}");
    assert_eq!(rt; answer, status, "with {said}");
    Ok(())
}

fn check(
    rt: &impl Abort,
    alloc: Global,
    words: &[&str],
    files: &[(&str, &str)],
    status: Status,
    said: &str,
) -> Result<(), Fail> {
    check_faulty(rt, alloc, words, files, (&[], &[]), status, said)
}

// The run of out.js alone.
fn check_one(
    rt: &impl Abort,
    alloc: Global,
    text: &str,
    status: Status,
    said: &str,
) -> Result<(), Fail> {
    check(rt, alloc, &RUN, &[("out.js", text)], status, said)
}

#[test]
fn each_end_has_its_line(rt: HostRuntime) -> Result<(), Fail> {
    let rows: [(&str, Status, &str); 10] = [
        ("", Status::Ok, ""),
        ("host$.print(\"a\");", Status::Ok, "a\n"),
        (
            "class A{}",
            Status::NotInProfile,
            "not in profile out.js 0\n",
        ),
        ("$nothing();", Status::Stuck, "stuck out.js 0\n"),
        (
            "host$.print(\"\\u00e9\"); throw \"x\";",
            Status::Threw,
            "\u{e9}\nuncaught x\n",
        ),
        ("throw -7;", Status::Threw, "uncaught -7\n"),
        ("throw null;", Status::Threw, "uncaught null\n"),
        ("throw false;", Status::Threw, "uncaught false\n"),
        ("let a$ = 9007199254740991 + 1;", Status::Left, "left\n"),
        (
            "function f$() { return f$(); } f$();",
            Status::Deep,
            "deep\n",
        ),
    ];
    for (text, status, said) in rows {
        check_one(&rt, rt.alloc(), text, status, said)?;
    }
    Ok(())
}

#[test]
fn an_absent_script_is_refused(rt: HostRuntime) -> Result<(), Fail> {
    let said = "refused U1 out.js 0\n";
    check(&rt, rt.alloc(), &RUN, &[], Status::Refused, said)
}

const LOADS: &str =
    "function p$(t$) { return function () { host$.print(t$); }; } host$.load([\"out.js_1.part.js\"], function () { host$.print(a$); }); host$.load([], p$(\"c\"));";

// The second shard is behind one that is absent.
#[test]
fn shards_are_read_up_to_the_first_absent(rt: HostRuntime) -> Result<(), Fail> {
    let files = [
        ("out.js", LOADS),
        ("out.js_1.part.js", "var a$ = \"b\";"),
        ("out.js_3.part.js", "class A{}"),
    ];
    check(&rt, rt.alloc(), &RUN, &files, Status::Ok, "b\nc\n")
}

#[test]
fn the_first_bad_shard_is_told(rt: HostRuntime) -> Result<(), Fail> {
    let files = [
        ("out.js", LOADS),
        ("out.js_1.part.js", ""),
        ("out.js_2.part.js", "a$ = 1; +"),
        ("out.js_3.part.js", "+"),
    ];
    let said = "not in profile out.js_2.part.js 8\n";
    check(&rt, rt.alloc(), &RUN, &files, Status::NotInProfile, said)
}

// Commands with options, in any order.
#[test]
fn options_are_taken(rt: HostRuntime) -> Result<(), Fail> {
    let files = [("out.js", LOADS), ("out.js_1.part.js", "var a$ = \"b\";")];
    let rows: [(&[&str], Status, &str); 4] = [
        (&["runjs", "out.js", "--order", "1,0"], Status::Ok, "c\nb\n"),
        (
            &["runjs", "out.js", "--steps", "100", "--order", "0"],
            Status::Ok,
            "b\nc\n",
        ),
        (
            &["runjs", "out.js", "--order", "1", "--steps", "100"],
            Status::Ok,
            "c\nb\n",
        ),
        (
            &["runjs", "out.js", "--steps", "0"],
            Status::Spent,
            "spent 0\n",
        ),
    ];
    for (words, status, said) in rows {
        check(&rt, rt.alloc(), words, &files, status, said)?;
    }
    Ok(())
}

#[test]
fn other_options_are_no_command(rt: HostRuntime) -> Result<(), Fail> {
    let rows: [&[&str]; 10] = [
        &["runjs"],
        &["runjs", "-out.js"],
        &["runjs", "out.js", "--steps"],
        &["runjs", "out.js", "--steps", "01"],
        &["runjs", "out.js", "--steps", "10000000000000000000"],
        &["runjs", "out.js", "--steps", "+1"],
        &["runjs", "out.js", "--order", ""],
        &["runjs", "out.js", "--order", "1,"],
        &["runjs", "out.js", "--order", "1000000000"],
        &["runjs", "out.js", "--steps", "1", "--steps", "1"],
    ];
    for words in rows {
        check(&rt, rt.alloc(), words, &[], Status::Usage, "usage\n")?;
    }
    Ok(())
}

// So many zeros with commas between.
fn zeros(alloc: Global, count: u32) -> Result<String, Fail> {
    let mut text = String::from_str(alloc, "0")?;
    for _ in 1..count {
        text.push_str(",0")?;
    }
    Ok(text)
}

#[test]
fn an_order_has_so_many_numbers(rt: HostRuntime) -> Result<(), Fail> {
    let alloc = rt.alloc();
    let most = zeros(alloc, 1024)?;
    let words = ["runjs", "out.js", "--order", most.as_str()];
    check(&rt, alloc, &words, &[("out.js", "")], Status::Ok, "")?;
    let more = zeros(alloc, 1025)?;
    let words = ["runjs", "out.js", "--order", more.as_str()];
    check(&rt, alloc, &words, &[], Status::Usage, "usage\n")
}

#[test]
fn a_failed_read_is_told(rt: HostRuntime) -> Result<(), Fail> {
    let files = [("out.js", ""), ("out.js_1.part.js", "")];
    let status = Status::ReadFault;
    let said = "cannot read out.js_2.part.js\n";
    check_faulty(&rt, rt.alloc(), &RUN, &files, (&[3], &[]), status, said)
}

#[test]
fn a_failed_say_ends_the_command(rt: HostRuntime) -> Result<(), Fail> {
    let files = [("out.js", "host$.print(\"a\"); host$.print(\"b\"); throw 1;")];
    let status = Status::WriteFault;
    check_faulty(&rt, rt.alloc(), &RUN, &files, (&[], &[2]), status, "a\n")?;
    check_faulty(&rt, rt.alloc(), &RUN, &files, (&[], &[3]), status, "a\nb\n")
}

// What `compile` puts runs as its program does.
#[test]
fn a_translation_is_run(rt: HostRuntime) -> Result<(), Fail> {
    let alloc = rt.alloc();
    let words = words_of(alloc, &["compile", "a.dart", "out.js"])?;
    let program = [("a.dart", "main(){var a=1;print(a+2);print('b');}")];
    let mut source = MemSource::new(files_of(alloc, &program)?, NumberList::new(alloc));
    let mut sink = MemSink::new(alloc, Files::new(alloc), 1, 4096, NumberList::new(alloc))?;
    let answer = dart_web_alone(alloc, &words, &mut source, &mut sink);
    assert_eq!(rt; answer, Status::Ok);
    let mut written = MemSource::new(sink.into_files(), NumberList::new(alloc));
    let mut out = MemSink::new(alloc, Files::new(alloc), 0, 4096, NumberList::new(alloc))?;
    let words = words_of(alloc, &RUN)?;
    let answer = dart_web_alone(alloc, &words, &mut written, &mut out);
    assert_eq!(rt; answer, Status::Ok);
    assert!(rt; out.said() == b"3\nb\n".as_slice());
    Ok(())
}
