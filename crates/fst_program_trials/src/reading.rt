//! Tokens, and the types, questions and modules that are read from them.

use fst_lexer::{TokenKind, lex};
use fst_print::module_text;
use fst_syntax::read_module;
use fst_tables::{each_line, each_pair};
use fst_terms::{Binder, Decl};
use fst_type_syntax::{read_question, read_type};
use fst_types::{Kind, Written, WrittenBranch, WrittenForm};
use std::alloc::Global;
use std::str;
use std::test::Fail;

/// The tokens of a text, or the fault: `Sign@3+2` has two bytes from byte 3 on, and `*` is put to the tokens that begin a
/// line.
fn tokens_text(alloc: Global, bytes: &[u8]) -> Result<String, Fail> {
    if bytes.len() > 1048576 {
        return Err(Fail::new("too many bytes"));
    }
    let tokens = match lex(alloc, bytes) {
        Ok(tokens) => tokens,
        Err(fault) => return Ok(format!(in alloc; "{fault:?}")?),
    };
    let mut text = String::new(alloc);
    for token in &tokens {
        let line = if token.first_column { "*" } else { "" };
        let blank = if text.is_empty() { "" } else { " " };
        write!(
            text,
            "{blank}{:?}@{}+{}{line}",
            token.kind, token.at, token.len
        )?;
    }
    Ok(text)
}

const TOKENS: [(&str, &str); 16] = [
    ("", "Finish@0+0*"),
    ("\n", "Finish@1+0*"),
    (
        "ab A'1 = 07\n'c'",
        "Lower@0+2* Upper@3+3 Sign@7+1 Number(7)@9+2 Character('c')@12+3* Finish@15+0",
    ),
    (
        "\tlet -- no\n Int ->\n",
        "Reserved@1+3 Reserved@12+3 Sign@16+2 Finish@19+0*",
    ),
    (
        "===>->|||&&&",
        "Sign@0+2* Sign@2+1 Sign@3+1 Sign@4+2 Sign@6+2 Sign@8+1 Sign@9+2 Sign@11+1 Finish@12+0",
    ),
    ("--\r\n x---", "Lower@5+1 Finish@9+0"),
    (
        "9223372036854775807",
        "Number(9223372036854775807)@0+19* Finish@19+0",
    ),
    (
        "1'a'x'a'",
        "Number(1)@0+1* Character('a')@1+3 Lower@4+4 Finish@8+0",
    ),
    ("_A \u{c9}\u{4e2d}", "Lower@0+2* Lower@3+5 Finish@8+0"),
    (
        "'\\n''\\''",
        "Character('\\n')@0+4* Character('\\'')@4+4 Finish@8+0",
    ),
    ("# \u{e9}", "BadChar(0)"),
    ("x\n 'ab'", "BadChar(3)"),
    ("'\\", "BadChar(0)"),
    ("0 9223372036854775808", "WideNumber(2)"),
    (
        "00000000000000000000000000000000000",
        "Number(0)@0+35* Finish@35+0",
    ),
    (
        "lets Let let'",
        "Lower@0+4* Upper@5+3 Lower@9+4 Finish@13+0",
    ),
];

const RESERVED: &str =
    "data type forall rec new send receive select match with case of let in if then else fork not close wait True False Int Bool Char Skip Close Wait";

fn tokens_row(alloc: Global, given: &str) -> Result<String, Fail> {
    tokens_text(alloc, given.as_bytes())
}

/// How many tokens a text has that are reserved words.
fn reserved_words(alloc: Global, given: &str) -> Result<String, Fail> {
    if given.len() > 1048576 {
        return Err(Fail::new("too many bytes"));
    }
    let tokens = lex(alloc, given.as_bytes())?;
    let count = tokens
        .iter()
        .filter(|token| token.kind == TokenKind::Reserved)
        .count();
    Ok(format!(in alloc; "{count}")?)
}

#[test]
fn texts_have_tokens(rt: HostRuntime) -> Result<(), Fail> {
    let alloc = rt.alloc();
    each_pair(alloc, &TOKENS, tokens_row)?;
    each_pair(alloc, &[(RESERVED, "29")], reserved_words)?;
    assert_eq!(rt; tokens_text(alloc, b"# \xff")?.as_str(), "NotUtf8(2)");
    Ok(())
}

fn named(bytes: &[u8]) -> &str {
    match str::from_utf8(bytes) {
        Ok(text) => text,
        Err(_) => "",
    }
}

/// A type behind the byte at which it begins, its parts in parentheses.
#[cycle(show)]
fn show(left: u32, written: &Written, text: &mut String) -> Result<(), Fail> {
    if left == 0 {
        return Err(Fail::new("too deep"));
    }
    write!(text, "{}", written.at)?;
    match &written.form {
        WrittenForm::Skip => write!(text, "Skip")?,
        WrittenForm::Send(base) => write!(text, "!{base:?}")?,
        WrittenForm::Receive(base) => write!(text, "?{base:?}")?,
        WrittenForm::Close => write!(text, "Close")?,
        WrittenForm::Wait => write!(text, "Wait")?,
        WrittenForm::Plain(base) => write!(text, "{base:?}")?,
        WrittenForm::Named(name) => text.push_str(named(name.as_slice()))?,
        WrittenForm::Select(branches) => show_all(left - 1, "+", branches, text)?,
        WrittenForm::Offer(branches) => show_all(left - 1, "&", branches, text)?,
        WrittenForm::Seq(first, second) => show_two(left - 1, ";", first, second, text)?,
        WrittenForm::Arrow(uses, first, second) => {
            write!(text, "{uses:?}")?;
            show_two(left - 1, "->", first, second, text)?
        }
        WrittenForm::Pair(first, second) => show_two(left - 1, ",", first, second, text)?,
        WrittenForm::Rec(name, body) => {
            write!(text, "rec {}.", named(name.as_slice()))?;
            show(left - 1, body, text)?
        }
    }
    Ok(())
}

#[cycle(show)]
fn show_two(
    left: u32,
    sign: &str,
    first: &Written,
    second: &Written,
    text: &mut String,
) -> Result<(), Fail> {
    text.push_str("(")?;
    show(left, first, text)?;
    text.push_str(sign)?;
    show(left, second, text)?;
    text.push_str(")")?;
    Ok(())
}

#[cycle(show)]
fn show_all(
    left: u32,
    sign: &str,
    branches: &[WrittenBranch],
    text: &mut String,
) -> Result<(), Fail> {
    write!(text, "{sign}{{")?;
    for branch in branches {
        text.push_str(named(branch.label.as_slice()))?;
        text.push_str(":")?;
        show(left, &branch.body, text)?;
        text.push_str(",")?;
    }
    text.push_str("}")?;
    Ok(())
}

fn show_binder(binder: &Binder, text: &mut String) -> Result<(), Fail> {
    write!(text, " {}", binder.at)?;
    text.push_str(named(binder.name.as_slice()))?;
    Ok(())
}

fn show_kinds(binders: &[(Binder, Kind)], text: &mut String) -> Result<(), Fail> {
    for (binder, kind) in binders {
        show_binder(binder, text)?;
        write!(text, ":{:?}{:?}", kind.uses, kind.prekind)?;
    }
    Ok(())
}

/// A question written out, or its fault.
fn question_text(alloc: Global, source: &str) -> Result<String, Fail> {
    if source.len() > 1048576 {
        return Err(Fail::new("too many bytes"));
    }
    let tokens = lex(alloc, source.as_bytes())?;
    let mut text = String::new(alloc);
    match read_question(alloc, &tokens, source) {
        Ok(question) => {
            show_kinds(&question.binders, &mut text)?;
            text.push(' ')?;
            show(300, &question.left, &mut text)?;
            text.push_str(" ~ ")?;
            show(300, &question.right, &mut text)?;
        }
        Err(fault) => write!(text, " {fault}")?,
    }
    Ok(text)
}

// A question, and what it is read as, with the byte at which each part begins.
const QUESTIONS: &str = "\
Skip ~ Skip = 0Skip ~ 7Skip
Char ~ ( ) = 0Char ~ 7Unit
!Int;!Bool;!Char;!() ~ ?Int = 0(0!Int;5(5!Bool;11(11!Char;17!Unit))) ~ 23?Int
+{A:Skip} ~ &{B:x, C : +{D:!Int}} = 0+{A:4Skip,} ~ 12&{B:16x,C:23+{D:27!Int,},}
rec x.!Int;x ~ rec y . rec x' . y = 0rec x.6(6!Int;11x) ~ 15rec y.23rec x'.32y
A;rec x.B;C ~ (rec x.B);C = 0(0A;2rec x.8(8B;10C)) ~ 14(15rec x.21B;24C)
A;B;C ~ (A;B);C = 0(0A;2(2B;4C)) ~ 8(9(9A;11B);14C)
((A)) ~ ((A;B);C) = 2A ~ 9(10(10A;12B);15C)
(A,B) ~ ((A), (B;C)) = 0(1A,3B) ~ 8(10A,15(15B;17C))
(A -> B, C) ~ () = 0(1Many(1A->6B),9C) ~ 14Unit
(A 01 -> B -> C) ~ ((A -> B) -> C) = 1Once(1A->9Many(9B->14C)) ~ 20Many(21Many(21A->26B)->32C)
forall a:1S.a ~ a = 7a:OnceSession 12a ~ 16a
forall a:*S, b:1S, c:*T, d : 01 T . a;b ~ (c,d) = 7a:ManySession 13b:OnceSession 19c:ManyTop 25d:OnceTop 36(36a;38b) ~ 42(43c,45d)
é;A ~ B = 0(0é;3A) ~ 7B
forall a:2S . a ~ a = syntax at 9
Skip ~ forall a:*S . a = syntax at 7
(Int, Int, Int) ~ Int = syntax at 9
Close;Wait ~ (Close) = 0(0Close;6Wait) ~ 14Close";

#[test]
fn texts_are_questions(rt: HostRuntime) -> Result<(), Fail> {
    each_line(rt.alloc(), QUESTIONS, question_text)
}

/// The type from a token of a text on, written out with the number of the token behind it, or its fault.
fn type_text(alloc: Global, source: &str, from: usize) -> Result<String, Fail> {
    if source.len() > 1048576 {
        return Err(Fail::new("too many bytes"));
    }
    let tokens = lex(alloc, source.as_bytes())?;
    if from >= tokens.len() {
        return Err(Fail::new("no such token"));
    }
    let mut text = String::new(alloc);
    match read_type(alloc, &tokens, source, from) {
        Ok((written, end)) => {
            show(300, &written, &mut text)?;
            write!(text, " up to {end}")?
        }
        Err(fault) => write!(text, "{fault}")?,
    }
    Ok(text)
}

// The number of a token, and a text; the type from the token on, and the number of the one behind it.
const TYPES: &str = "\
0 ¦ A -> B : x = 0Many(0A->5B) up to 3
4 ¦ A -> B : x = 9x up to 5
1 ¦ A -> B : x = syntax at 2
2 ¦ f : Int 1-> Bool : g = 4Once(4Int->12Bool) up to 6
2 ¦ f : Int 2 -> Bool = 4Int up to 3
2 ¦ f : Int -> = syntax at 10
1 ¦ x Skip;y z = 2(2Skip;7y) up to 4
1 ¦ (A, B) ~ C = 1A up to 2
0 ¦ ((A)) -> (B)) ) = 0Many(2A->10B) up to 9";

fn type_row(alloc: Global, given: &str) -> Result<String, Fail> {
    let (from, source) = given.split_once(" ¦ ").ok_or("no token")?;
    type_text(alloc, source, from.parse::<usize>()?)
}

#[test]
fn types_stand_in_texts(rt: HostRuntime) -> Result<(), Fail> {
    each_line(rt.alloc(), TYPES, type_row)
}

fn show_decl(decl: &Decl, text: &mut String) -> Result<(), Fail> {
    match decl {
        Decl::Family(name, makers) => {
            show_binder(name, text)?;
            for maker in makers {
                text.push_str(" |")?;
                show_binder(&maker.name, text)?;
                for field in &maker.fields {
                    text.push(' ')?;
                    show(300, field, text)?;
                }
            }
        }
        Decl::Alias(name, body) => {
            show_binder(name, text)?;
            text.push_str(" type ")?;
            show(300, body, text)?;
        }
        Decl::Signature(name, binders, body) => {
            show_binder(name, text)?;
            show_kinds(binders, text)?;
            text.push_str(" : ")?;
            show(300, body, text)?;
        }
        Decl::Equation(name, binders, body) => {
            show_binder(name, text)?;
            for binder in binders {
                show_binder(binder, text)?;
            }
            write!(text, " = {}", body.at)?;
        }
    }
    Ok(())
}

/// The declarations of a module with the bytes at which they begin, and its text; or its fault.
fn module_row(alloc: Global, given: &str) -> Result<String, Fail> {
    if given.len() > 1048576 {
        return Err(Fail::new("too many bytes"));
    }
    let tokens = lex(alloc, given.as_bytes())?;
    let mut text = String::new(alloc);
    match read_module(alloc, &tokens, given) {
        Ok(module) => {
            for decl in &module.decls {
                show_decl(decl, &mut text)?;
                text.push('\n')?;
            }
            text.push_str(&module_text(alloc, &module)?)?
        }
        Err(fault) => write!(text, "{fault}")?,
    }
    Ok(text)
}

const MODULES: [(&str, &str); 7] = [
    ("", ""),
    (
        "data T = A (B->C) +{X:a} ()\n | D\n",
        " 5T | 9A 12Many(12B->15C) 18+{X:22a,} 25Unit | 31D\ndata T = A (B -> C) +{X: a} () | D\n",
    ),
    (
        "type A=rec x . &{Y : x}",
        " 5A type 7rec x.15&{Y:21x,}\ntype A = rec x. &{Y: x}\n",
    ),
    (
        "f:forall a:1S,b:*T.(a,b)",
        " 0f 9a:OnceSession 14b:ManyTop : 19(20a,22b)\nf : forall a:1S, b:*T. (a, b)\n",
    ),
    (
        "f x  y'=\n (7)+x\n\u{e9} = 'a'",
        " 0f 2x 5y' = 10\n 16\u{e9} = 21\nf x y' = 7 + x\n\u{e9} = 'a'\n",
    ),
    ("f = x\n g = y", "syntax at 9"),
    ("data A = b", "syntax at 9"),
];

#[test]
fn texts_are_modules(rt: HostRuntime) -> Result<(), Fail> {
    each_pair(rt.alloc(), &MODULES, module_row)
}
