ghost use Rattle.std.specs.Prelude.{◌≡◌, option_map};
ghost use Rattle.fst_machine.specs.Values.{bool, char, int, operated};
ghost use Rattle.fst_vm.specs.Scalars.{scalar_at};

use fst_terms::Op;
use fst_value::Form;

// What a sign gives for two numbers.
fn with_numbers(op: Op, m: i64, n: i64) -> Option<Form>
    ensures { option_map scalar_at result ≡ operated op (int m) (int n) }
{
    let order = m.cmp(&n);
    match op {
        Op::Add => Some(Form::Int(m.wrapping_add(n))),
        Op::Subtract => Some(Form::Int(m.wrapping_sub(n))),
        Op::Multiply => Some(Form::Int(m.wrapping_mul(n))),
        Op::Equal => Some(Form::Bool(order.is_eq())),
        Op::Unequal => Some(Form::Bool(order.is_ne())),
        Op::Less => Some(Form::Bool(order.is_lt())),
        Op::AtMost => Some(Form::Bool(order.is_le())),
        Op::Greater => Some(Form::Bool(order.is_gt())),
        Op::AtLeast => Some(Form::Bool(order.is_ge())),
        Op::And | Op::Or => None,
    }
}

// What it gives for two characters.
fn with_characters(op: Op, c: char, d: char) -> Option<Form>
    ensures { option_map scalar_at result ≡ operated op (char c) (char d) }
{
    let order = c.cmp(&d);
    match op {
        Op::Equal => Some(Form::Bool(order.is_eq())),
        Op::Unequal => Some(Form::Bool(order.is_ne())),
        Op::Less => Some(Form::Bool(order.is_lt())),
        Op::AtMost => Some(Form::Bool(order.is_le())),
        Op::Greater => Some(Form::Bool(order.is_gt())),
        Op::AtLeast => Some(Form::Bool(order.is_ge())),
        Op::Add | Op::Subtract | Op::Multiply | Op::And | Op::Or => None,
    }
}

// What it gives for two truth values.
fn with_truths(op: Op, a: bool, b: bool) -> Option<Form>
    ensures { option_map scalar_at result ≡ operated op (bool a) (bool b) }
{
    match op {
        Op::And => Some(Form::Bool(a && b)),
        Op::Or => Some(Form::Bool(a || b)),
        Op::Add | Op::Subtract | Op::Multiply => None,
        Op::Equal | Op::Unequal | Op::Less | Op::AtMost | Op::Greater | Op::AtLeast => None,
    }
}

/// What a sign gives for two values of base types, if they are of its kind.
pub(crate) fn operated(op: Op, left: Form, right: Form) -> Option<Form>
    ensures { option_map scalar_at result ≡ operated op (scalar_at left) (scalar_at right) }
{
    match (left, right) {
        (Form::Int(m), Form::Int(n)) => with_numbers(op, m, n),
        (Form::Char(c), Form::Char(d)) => with_characters(op, c, d),
        (Form::Bool(a), Form::Bool(b)) => with_truths(op, a, b),
        _ => None,
    }
}
