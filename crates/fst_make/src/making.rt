ghost use Rattle.std.specs.Prelude.{◌≡◌, ◌≤◌, ◌++◌, IfOk, OnOk, codes, decimal};
ghost use Rattle.std.specs.String.{string_bytes};
ghost use Rattle.fst_base.specs.Limits.{most_made};
ghost use Rattle.fst_make.specs.Made.{call_text, channel_lines, fork_text, last_lines, made_text, receiver, receiver_equation, receiver_lines, receiver_type, sender, sender_lines};

use fst_base::push_number;
use std::alloc::{AllocError, Global};

fn push_sender(text: &mut String, i: u32) -> Result<(), AllocError>
    ensures { OnOk result (string_bytes text.new ≡ string_bytes text.old ++ sender i) }
{
    text.push_str("p")?;
    push_number(text, i)
}

fn push_receiver(text: &mut String, i: u32) -> Result<(), AllocError>
    ensures { OnOk result (string_bytes text.new ≡ string_bytes text.old ++ receiver i) }
{
    text.push_str("r")?;
    push_number(text, i)
}

fn push_sender_lines(text: &mut String, i: u32) -> Result<(), AllocError>
    ensures { OnOk result (string_bytes text.new ≡ string_bytes text.old ++ sender_lines i) }
{
    push_sender(text, i)?;
    text.push_str(" : !Int -> Skip\n")?;
    push_sender(text, i)?;
    text.push_str(" c = send ")?;
    push_number(text, i)?;
    text.push_str(" c\n")
}

fn push_receiver_type(text: &mut String, i: u32) -> Result<(), AllocError>
    ensures { OnOk result (string_bytes text.new ≡ string_bytes text.old ++ receiver_type i) }
{
    push_receiver(text, i)?;
    text.push_str(" : Int -> Int\n")
}

fn push_fork(text: &mut String, i: u32) -> Result<(), AllocError>
    ensures { OnOk result (string_bytes text.new ≡ string_bytes text.old ++ fork_text i) }
{
    text.push_str("fork (")?;
    push_sender(text, i)?;
    text.push_str(" a); ")
}

fn push_call(text: &mut String, j: u32) -> Result<(), AllocError>
    ensures { OnOk result (string_bytes text.new ≡ string_bytes text.old ++ call_text j) }
{
    text.push_str("let (x, d) = receive b in ")?;
    push_receiver(text, j)?;
    text.push_str(" (s + x)\n")
}

fn push_receiver_equation(text: &mut String, i: u32) -> Result<(), AllocError>
    requires { i ≤ most_made }
    ensures { OnOk result (string_bytes text.new ≡ string_bytes text.old ++ receiver_equation i) }
{
    push_receiver(text, i)?;
    text.push_str(" s = let (a, b) = new !Int in ")?;
    push_fork(text, i)?;
    push_call(text, i + 1)
}

fn push_receiver_lines(text: &mut String, i: u32) -> Result<(), AllocError>
    requires { i ≤ most_made }
    ensures { OnOk result (string_bytes text.new ≡ string_bytes text.old ++ receiver_lines i) }
{
    push_receiver_type(text, i)?;
    push_receiver_equation(text, i)
}

fn push_channel_lines(text: &mut String, i: u32) -> Result<(), AllocError>
    requires { i ≤ most_made }
    ensures { OnOk result (string_bytes text.new ≡ string_bytes text.old ++ channel_lines i) }
{
    push_sender_lines(text, i)?;
    push_receiver_lines(text, i)
}

fn push_last_lines(text: &mut String, k: u32) -> Result<(), AllocError>
    ensures { OnOk result (string_bytes text.new ≡ string_bytes text.old ++ last_lines k) }
{
    push_receiver_type(text, k)?;
    push_receiver(text, k)?;
    text.push_str(" s = s\n")
}

/// The text of the module of `n` channels, over each of which a task of its own sends a number, from 1 to `n`; `main` receives
/// them one after another, and gives their sum.
pub fn make(alloc: Global, n: u32) -> Result<String, AllocError>
    requires { n ≤ most_made }
    ensures { IfOk result (λ text. string_bytes text ≡ made_text n) }
{
    let mut text = String::from_str(alloc, "main : Int\nmain = r1 0\n")?;
    let last = n + 1;
    for i in 1..last {
        push_channel_lines(&mut text, i)?;
    }
    push_last_lines(&mut text, last)?;
    Ok(text)
}
