// What no clause says: what is spelled and named, beside the language's own documents.
use crate::laws;
use crate::levels::Level;
use crate::rules::{Refusal, Rule};
use crate::tokens::{Form, Token, TokenList, Tokens};
use crate::words::{SIGNS, Sign, WORDS, Word};
use code_units::Text;
use std::test::Fail;

#[test]
fn words_and_signs_are_spelled(rt: HostRuntime) -> Result<(), Fail> {
    assert_eq!(rt; Word::Rethrow.spelling(), b"rethrow".as_slice());
    assert_eq!(rt; Sign::DivideAssign.spelling(), b"~/=".as_slice());
    assert_eq!(rt; WORDS[32].spelling(), b"with".as_slice());
    assert_eq!(rt; SIGNS[0].spelling(), b"~/=".as_slice());
    Ok(())
}

#[test]
fn a_refusal_names_its_rule(rt: HostRuntime) -> Result<(), Fail> {
    let refusal = Refusal {
        rule: Rule::S6,
        file: 1,
        at: 13,
    };
    assert_eq!(rt; refusal.rule.name(), "S6");
    assert!(rt; Rule::B14.name() == "B14" && Rule::U1.name() == "U1");
    Ok(())
}

#[test]
fn tokens_hold_what_they_spell(rt: HostRuntime) -> Result<(), Fail> {
    let alloc = rt.alloc();
    let mut items = TokenList::new(alloc);
    items.push(Token {
        form: Form::Name(Text::from_str(alloc, "main")?),
        from: 0,
        to: 4,
    })?;
    let tokens = Tokens {
        file: 1,
        length: 4,
        items,
    };
    assert!(rt; matches!(&tokens.items.get(0).form, Form::Name(name) if name.is("main")));
    let open = Level::Text {
        double: true,
        raw: false,
    };
    assert!(rt; open != Level::Hole && Level::Hole != Level::Brace);
    Ok(())
}

#[test]
fn laws_do_nothing() {
    laws::tokens_are_one();
    laws::first_broken_is_one();
    laws::tokens_break_none();
    laws::tokens_or_broken();
    laws::tokens_ascend();
}
