use super::{run_first, runs_are_of_a_meaning, tokens_are_one_program};
use code_units::{End, RunEnd, Text};
use dart_syntax::{Form, Sign, Token, TokenList, Word};
use std::alloc::{AllocError, Global};
use std::process::Abort;
use std::test::Fail;

// Some tokens, without their places.
#[derive(Clone, Copy, Debug)]
enum Item<'a> {
    Name(&'a str),
    Number(u64),
    Text(&'a str),
    Sign(Sign),
    Var,
}

const PLUS: Item = Item::Sign(Sign::Plus);

const MINUS: Item = Item::Sign(Sign::Minus);

const TIMES: Item = Item::Sign(Sign::Times);

const OPEN: Item = Item::Sign(Sign::OpenParen);

const CLOSE: Item = Item::Sign(Sign::CloseParen);

const END: Item = Item::Sign(Sign::Semicolon);

// A statement of a first program, whose expression has these tokens.
#[derive(Clone, Copy, Debug)]
enum Line<'a> {
    Print(&'a [Item<'a>]),
    Declare(&'a str, &'a [Item<'a>]),
}

fn add_form(tokens: &mut TokenList, form: Form) -> Result<(), AllocError> {
    tokens.push(Token {
        form,
        from: 0,
        to: 0,
    })
}

fn add_text(alloc: Global, tokens: &mut TokenList, text: &str) -> Result<(), AllocError> {
    add_form(tokens, Form::TextOpen)?;
    let units = Text::from_str(alloc, text)?;
    add_form(tokens, Form::Piece(units))?;
    add_form(tokens, Form::TextClose)
}

fn add_name(alloc: Global, tokens: &mut TokenList, name: &str) -> Result<(), AllocError> {
    let name = Text::from_str(alloc, name)?;
    add_form(tokens, Form::Name(name))
}

fn add(alloc: Global, tokens: &mut TokenList, item: Item) -> Result<(), AllocError> {
    match item {
        Item::Name(name) => add_name(alloc, tokens, name),
        Item::Number(number) => add_form(tokens, Form::Number(number)),
        Item::Text(text) => add_text(alloc, tokens, text),
        Item::Sign(sign) => add_form(tokens, Form::Sign(sign)),
        Item::Var => add_form(tokens, Form::Word(Word::Var)),
    }
}

fn add_all(alloc: Global, tokens: &mut TokenList, items: &[Item]) -> Result<(), AllocError> {
    for item in items {
        add(alloc, tokens, *item)?;
    }
    Ok(())
}

fn add_print(alloc: Global, tokens: &mut TokenList, value: &[Item]) -> Result<(), AllocError> {
    add_all(alloc, tokens, &[Item::Name("print"), OPEN])?;
    add_all(alloc, tokens, value)?;
    add_all(alloc, tokens, &[CLOSE, END])
}

fn add_line(alloc: Global, tokens: &mut TokenList, line: Line) -> Result<(), AllocError> {
    match line {
        Line::Print(value) => add_print(alloc, tokens, value),
        Line::Declare(name, value) => {
            let begin = [Item::Var, Item::Name(name), Item::Sign(Sign::Assign)];
            add_all(alloc, tokens, &begin)?;
            add_all(alloc, tokens, value)?;
            add(alloc, tokens, END)
        }
    }
}

fn add_main(alloc: Global, tokens: &mut TokenList) -> Result<(), AllocError> {
    let begin = [Item::Name("main"), OPEN, CLOSE, Item::Sign(Sign::OpenBrace)];
    add_all(alloc, tokens, &begin)
}

// `main ( ) {`, the statements, and these tokens at the end.
fn tokens_of(alloc: Global, lines: &[Line], end: &[Item]) -> Result<TokenList, AllocError> {
    let mut tokens = TokenList::new(alloc);
    add_main(alloc, &mut tokens)?;
    for line in lines {
        add_line(alloc, &mut tokens, *line)?;
    }
    add_all(alloc, &mut tokens, end)?;
    Ok(tokens)
}

// The run of the statements, which are a first program.
fn run(alloc: Global, lines: &[Line], steps: u64) -> Result<RunEnd, Fail> {
    let tokens = tokens_of(alloc, lines, &[Item::Sign(Sign::CloseBrace)])?;
    match run_first(alloc, tokens.as_slice(), steps)? {
        Some(run) => Ok(run),
        None => Err(Fail::from("no first program")),
    }
}

// Whether the statements and what is behind them are no first program.
fn is_none(alloc: Global, lines: &[Line], end: &[Item]) -> Result<bool, AllocError> {
    let tokens = tokens_of(alloc, lines, end)?;
    let run = run_first(alloc, tokens.as_slice(), 100)?;
    Ok(run.is_none())
}

// Whether the print of these tokens is no first program.
fn is_refused(alloc: Global, value: &[Item]) -> Result<bool, AllocError> {
    let mut tokens = TokenList::new(alloc);
    add_main(alloc, &mut tokens)?;
    add_print(alloc, &mut tokens, value)?;
    add(alloc, &mut tokens, Item::Sign(Sign::CloseBrace))?;
    let run = run_first(alloc, tokens.as_slice(), 100)?;
    Ok(run.is_none())
}

fn assert_printed(rt: &impl Abort, run: &RunEnd, texts: &[&str]) {
    assert_eq!(rt; run.output.len(), texts.len() as u64);
    for (line, text) in run.output.as_slice().iter().zip(texts.iter()) {
        assert!(rt; line.is(text), "not {text}");
    }
}

// print(1-2-3);print(2*3-4*5);print(0-0);
#[test]
fn numbers_are_printed(rt: HostRuntime) -> Result<(), Fail> {
    let (one, two, three) = (Item::Number(1), Item::Number(2), Item::Number(3));
    let (four, five, zero) = (Item::Number(4), Item::Number(5), Item::Number(0));
    let lines = [
        Line::Print(&[one, MINUS, two, MINUS, three]),
        Line::Print(&[two, TIMES, three, MINUS, four, TIMES, five]),
        Line::Print(&[zero, MINUS, zero]),
    ];
    let run = run(rt.alloc(), &lines, 100)?;
    assert_printed(&rt, &run, &["-4", "-14", "0"]);
    assert!(rt; matches!(run.end, End::Done));
    Ok(())
}

// var main=2;var a=main*main;print(a-main*3);
#[test]
fn names_have_their_values(rt: HostRuntime) -> Result<(), Fail> {
    let (main, a) = (Item::Name("main"), Item::Name("a"));
    let lines = [
        Line::Declare("main", &[Item::Number(2)]),
        Line::Declare("a", &[main, TIMES, main]),
        Line::Print(&[a, MINUS, main, TIMES, Item::Number(3)]),
    ];
    let run = run(rt.alloc(), &lines, 100)?;
    assert_printed(&rt, &run, &["-2"]);
    assert!(rt; matches!(run.end, End::Done));
    Ok(())
}

// print('Hi, you: 1;!?-.');var a='b c';var b=a;print(b);print('');
#[test]
fn texts_are_printed(rt: HostRuntime) -> Result<(), Fail> {
    let lines = [
        Line::Print(&[Item::Text("Hi, you: 1;!?-.")]),
        Line::Declare("a", &[Item::Text("b c")]),
        Line::Declare("b", &[Item::Name("a")]),
        Line::Print(&[Item::Name("b")]),
        Line::Print(&[Item::Text("")]),
    ];
    let run = run(rt.alloc(), &lines, 100)?;
    assert_printed(&rt, &run, &["Hi, you: 1;!?-.", "b c", ""]);
    assert!(rt; matches!(run.end, End::Done));
    Ok(())
}

// var a=9007199254740991;print(a);print(a+1);
#[test]
fn a_number_out_of_range_ends_the_run(rt: HostRuntime) -> Result<(), Fail> {
    let a = Item::Name("a");
    let lines = [
        Line::Declare("a", &[Item::Number(9007199254740991)]),
        Line::Print(&[a]),
        Line::Print(&[a, PLUS, Item::Number(1)]),
    ];
    let run = run(rt.alloc(), &lines, 100)?;
    assert_printed(&rt, &run, &["9007199254740991"]);
    assert!(rt; matches!(run.end, End::Left));
    Ok(())
}

// var a=7;print(a);print(8); takes one step for the call of main, two for the `var`, and three for each print
#[test]
fn each_step_counts(rt: HostRuntime) -> Result<(), Fail> {
    let alloc = rt.alloc();
    let lines = [
        Line::Declare("a", &[Item::Number(7)]),
        Line::Print(&[Item::Name("a")]),
        Line::Print(&[Item::Number(8)]),
    ];
    for (steps, printed) in [(0, 0), (1, 0), (5, 0), (6, 1), (8, 1)] {
        let run = run(alloc, &lines, steps)?;
        assert_eq!(rt; run.output.len(), printed);
        assert!(rt; matches!(run.end, End::Spent));
    }
    let whole = run(alloc, &lines, 9)?;
    assert_printed(&rt, &whole, &["7", "8"]);
    assert!(rt; matches!(whole.end, End::Done));
    Ok(())
}

#[test]
fn a_program_ends_with_its_brace(rt: HostRuntime) -> Result<(), Fail> {
    let lines = [Line::Print(&[Item::Number(1)])];
    let brace = Item::Sign(Sign::CloseBrace);
    for end in [[].as_slice(), &[brace, brace], &[brace, END], &[END, brace]] {
        assert!(rt; is_none(rt.alloc(), &lines, end)?);
    }
    Ok(())
}

#[test]
fn other_expressions_are_refused(rt: HostRuntime) -> Result<(), Fail> {
    let (one, text) = (Item::Number(1), Item::Text("a"));
    let values = [
        [].as_slice(),
        &[PLUS, one],
        &[one, PLUS],
        &[one, one],
        &[OPEN, one, CLOSE],
        &[Item::Number(9007199254740992)],
        &[Item::Name("a")],
        &[text, PLUS, one],
        &[one, TIMES, text],
        &[text, text],
        &[Item::Text("a\tb")],
    ];
    for value in values {
        assert!(rt; is_refused(rt.alloc(), value)?);
    }
    Ok(())
}

#[test]
fn other_names_are_refused(rt: HostRuntime) -> Result<(), Fail> {
    let (one, end) = (Item::Number(1), [Item::Sign(Sign::CloseBrace)]);
    let print = [Line::Declare("print", &[one])];
    assert!(rt; is_none(rt.alloc(), &print, &end)?);
    let itself = [Line::Declare("a", &[Item::Name("a")])];
    assert!(rt; is_none(rt.alloc(), &itself, &end)?);
    let twice = [Line::Declare("a", &[one]), Line::Declare("a", &[one])];
    assert!(rt; is_none(rt.alloc(), &twice, &end)?);
    Ok(())
}

// var a='b';print(a+1); and others of this kind
#[test]
fn a_text_name_is_no_operand(rt: HostRuntime) -> Result<(), Fail> {
    let (a, one) = (Item::Name("a"), Item::Number(1));
    let end = [Item::Sign(Sign::CloseBrace)];
    for value in [[a, PLUS, one], [one, MINUS, a], [one, TIMES, a]] {
        let lines = [Line::Declare("a", &[Item::Text("b")]), Line::Print(&value)];
        assert!(rt; is_none(rt.alloc(), &lines, &end)?);
    }
    Ok(())
}

#[test]
fn laws_do_nothing() {
    tokens_are_one_program();
    runs_are_of_a_meaning();
}
